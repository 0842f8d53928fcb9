// What is counted over runs, and what is printed: a line for each case, and the counts at the end.
use crate::cases::Case;
use crate::plan::Refused;
use crate::whole::End;
use std::fmt;
use std::ops::AddAssign;

// Of some runs: how many, their differences, the accepted calls, the refused ones by number, and the looks at the Ritz record with those
// that were right.
#[derive(Clone, Copy, Default)]
pub struct Tally {
    pub runs: usize,
    pub differences: usize,
    pub accepted: usize,
    pub refused: Refused,
    pub looks: usize,
    pub right: usize,
}

// A case's line: its upward run, with which the others are compared, and what was counted over all its runs.
#[derive(Clone, Copy)]
pub struct Line {
    pub case: Case,
    pub upward: End,
    pub tally: Tally,
}

// ---- counting

// How many of a run's numbers are not what they must be: the oracle's digest and counts, the calls, the upward run's lists and state, and
// the looks that were right, one after the opening and one after each call.
fn differences_of(case: Case, upward: End, end: End) -> usize {
    let counts = end.counts;
    let differs = [
        end.digest != case.digest,
        counts.passes != case.passes(),
        counts.refreshed != case.refreshed,
        counts.zeroed != case.zeroed,
        counts.isolated != case.isolated,
        end.walk.accepted != case.calls(counts.refreshed),
        end.all != upward.all,
        end.looks.right != end.walk.accepted.saturating_add(1),
    ];
    let count = differs.iter().filter(|d| **d).count();
    count.saturating_add(end.walk.wrong)
}

impl AddAssign for Tally {
    fn add_assign(&mut self, other: Tally) {
        self.runs = self.runs.saturating_add(other.runs);
        self.differences = self.differences.saturating_add(other.differences);
        self.accepted = self.accepted.saturating_add(other.accepted);
        self.refused += other.refused;
        self.looks = self.looks.saturating_add(other.looks);
        self.right = self.right.saturating_add(other.right);
    }
}

impl Line {
    pub fn new(case: Case, upward: End) -> Self {
        Line {
            case,
            upward,
            tally: Tally::default(),
        }
    }

    pub fn count(&mut self, end: End) {
        self.tally += Tally {
            runs: 1,
            differences: differences_of(self.case, self.upward, end),
            accepted: end.walk.accepted,
            refused: end.walk.refused,
            looks: end.looks.made,
            right: end.looks.right,
        };
    }
}

// ---- printing

impl fmt::Display for Line {
    fn fmt<W: fmt::Write>(&self, f: &mut fmt::Formatter<W>) -> fmt::Result {
        let Line {
            case,
            upward,
            tally,
        } = *self;
        let counts = upward.counts;
        write!(f, "{case}: orders={} ", tally.runs)?;
        write!(f, "digest={:016x} ", upward.digest)?;
        write!(
            f,
            "passes={} refreshed={} ",
            counts.passes, counts.refreshed
        )?;
        write!(f, "zeroed={} isolated={} ", counts.zeroed, counts.isolated)?;
        write!(
            f,
            "calls={} refused={} ",
            upward.walk.accepted,
            tally.refused.total()
        )?;
        match tally.differences {
            0 => write!(f, "same=yes"),
            differences => write!(f, "same=no differences={differences}"),
        }
    }
}

impl fmt::Display for Tally {
    fn fmt<W: fmt::Write>(&self, f: &mut fmt::Formatter<W>) -> fmt::Result {
        write!(f, "runs={} calls={} ", self.runs, self.accepted)?;
        write!(f, "refused by {} ", self.refused)?;
        write!(f, "looks={} right={} ", self.looks, self.right)?;
        write!(f, "differences={}", self.differences)
    }
}
