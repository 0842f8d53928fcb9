// What the writers must refuse and no stored text can hold, with several faults at once. Each is tried with room to spare and with none.
use crate::again::{self, Request};
use crate::lent;
use crate::stored::Said;
use crate::tally::{Kind, Tally};
use input::{Graph, SpectralParams, Verdict};

// By document 01's number, here and in again.rt and lent.rt: told apart from the library that is tried.
fn refusal(number: u64, place: u64) -> Verdict {
    Verdict { number, place }
}

// ---- the first writer

// Sizes at their limits, and one more: so many rounds, starts, columns and values, and what must be answered. 3 comes nowhere: such a graph
// is over these sizes. D, the degree and seed_std are 0, so that 1, 9 and 10 have their faults too.
pub fn of_files(t: &mut Tally) {
    for (rounds, starts, columns, values, verdict) in [
        (401, 66, 1025, 1025, refusal(17, 2)),
        (u64::MAX, 2, 0, 0, refusal(17, 2)),
        (400, 66, 1025, 1025, refusal(17, 5)),
        (0, 66, 0, 0, refusal(17, 5)),
        (400, 65, 1025, 1025, refusal(17, 6)),
        (400, 0, 1025, 0, refusal(17, 6)),
        (400, 65, 1024, 1025, refusal(17, 7)),
        (400, 65, 1024, 1024, refusal(1, 0)),
    ] {
        let asked = Request {
            d: 0,
            params: SpectralParams {
                rounds,
                degree: 0,
                seed_std: 0.0,
            },
            graph: Graph {
                starts: again::front(&[0; 66], starts),
                columns: again::front(&[0; 1025], columns),
                values: again::front(&[0.0; 1025], values),
            },
        };
        for room in [lent::ROOM, 0] {
            asked.try_written(Err(verdict), room, Kind::FilesRefused, t);
        }
    }
}

// ---- the second writer

// The answer that says the largest refusal.
const LARGEST: &[u8] = b"answer=18446744073709551615\nat=18446744073709551615\n";

// So many zeros as the seed of n rows of d, and what must be answered. A refusal is printed whatever D, n and the seed are: here the longest.
pub fn of_answers(t: &mut Tally) {
    for (d, n, numbers, verdict) in [
        (0, 0, 0, refusal(1, 0)),
        (8, 65, 0, refusal(1, 0)),
        (u64::MAX, 64, 447, refusal(1, 0)),
        (7, 0, 0, refusal(2, 0)),
        (1, 65, 64, refusal(17, 0)),
        (7, usize::MAX, 448, refusal(17, 0)),
        (7, 64, 447, refusal(11, 9)),
        (1, 1, 0, refusal(11, 9)),
    ] {
        let asked = |verdict: Verdict| Said {
            d,
            n,
            numbers,
            ..Said::refused(verdict)
        };
        // Number 0 is no refusal, whatever its place.
        let accepted = asked(refusal(0, 7));
        for room in [lent::ROOM, 0] {
            again::try_printed(&accepted, Err(verdict), room, Kind::AnswersRefused, t);
        }
        again::answer_again(&asked(refusal(u64::MAX, u64::MAX)), LARGEST, t);
    }
}
