// The Ritz record of a run on its way: how far it must be written, and what looks at it have seen.
use crate::cases::Case;
use crate::digest;
use crate::lists::LENT;
use state::Progress;

// The stage that writes a round's numbers as it closes.
const PRODUCTS: usize = 14;

// The looks of a run: how many numbers were of finished rounds at the last one, and their digest; how many looks there were, and how many
// were right.
#[derive(Clone, Copy)]
pub struct Looks {
    pub kept: usize,
    pub digest: u64,
    pub made: usize,
    pub right: usize,
}

// As many numbers as are of rounds whose products have closed. In the stages after the last round the state still has that round's number.
pub fn finished(case: Case, progress: Progress) -> usize {
    if PRODUCTS < progress.stage {
        return case.record();
    }
    case.record_of(progress.round)
}

// Every number of the first `finished` is written, and none behind them. A run does not write the number that lists are filled with: a
// bound is below 1, and no Ritz value of these graphs is far above it.
fn is_so_far(list: &[f64], finished: usize) -> bool {
    list.iter()
        .enumerate()
        .all(|(i, x)| (*x != LENT) == (i < finished))
}

impl Looks {
    pub fn new() -> Self {
        Looks {
            kept: 0,
            digest: digest::EMPTY,
            made: 0,
            right: 0,
        }
    }

    // Whether the numbers of rounds that had finished at the last look are the same.
    pub fn is_kept(self, list: &[f64]) -> bool {
        digest::of_front(list, self.kept) == self.digest
    }

    // One look more: those are the same, and the record is written so far and no further.
    pub fn look(&mut self, list: &[f64], finished: usize) {
        if self.is_kept(list) && is_so_far(list, finished) {
            self.right = self.right.saturating_add(1);
        }
        self.made = self.made.saturating_add(1);
        self.kept = finished;
        self.digest = digest::of_front(list, finished);
    }
}
