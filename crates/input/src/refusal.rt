// Document 01's refusals by their names, and how one crosses to C: as its number and its place.
ghost use Rattle.std.specs.Prelude.{◌≡◌};
ghost use Rattle.input.specs.Said.{verdict_of, refusal_of, verdict_in};

use crate::Verdict;

// Numbers 1 to 19 in their order; a refusal with a place has it beside it.
#[derive(Clone, Copy, Debug, PartialEq, Eq)]
pub enum Refusal {
    Dims,
    Rows,
    Limits,
    Lengths,
    Starts(usize), // that start's index
    Column(usize), // the first entry at fault, as for a value
    Value(usize),
    Rounds,
    Degree,
    SeedStd,
    Memory(usize), // the first lent memory that is too short
    Chunk(usize), // the number offered
    Done(usize),
    Undone(usize), // the lowest chunk not done
    NoRun,
    State,
    File(u64), // the line of a run file, from 1; 0 for a text that cannot be written
    Room,
    Market(u64), // the line of a Matrix Market file
}

impl Refusal {
    pub fn number(self) -> u64
        ensures { result ≡ (refusal_of self).number }
    {
        match self {
            Refusal::Dims => 1,
            Refusal::Rows => 2,
            Refusal::Limits => 3,
            Refusal::Lengths => 4,
            Refusal::Starts(_) => 5,
            Refusal::Column(_) => 6,
            Refusal::Value(_) => 7,
            Refusal::Rounds => 8,
            Refusal::Degree => 9,
            Refusal::SeedStd => 10,
            Refusal::Memory(_) => 11,
            Refusal::Chunk(_) => 12,
            Refusal::Done(_) => 13,
            Refusal::Undone(_) => 14,
            Refusal::NoRun => 15,
            Refusal::State => 16,
            Refusal::File(_) => 17,
            Refusal::Room => 18,
            Refusal::Market(_) => 19,
        }
    }

    // 0 for a refusal that has none.
    pub fn place(self) -> u64
        ensures { result ≡ (refusal_of self).place }
    {
        match self {
            Refusal::Starts(i) => i as u64,
            Refusal::Column(e) | Refusal::Value(e) => e as u64,
            Refusal::Memory(j) => j as u64,
            Refusal::Chunk(h) | Refusal::Done(h) | Refusal::Undone(h) => h as u64,
            Refusal::File(line) | Refusal::Market(line) => line,
            _ => 0,
        }
    }
}

impl From<Result<(), Refusal>> for Verdict {
    ghost from_gives = { λ tested verdict. verdict_of verdict ≡ verdict_in tested };

    fn from(tested: Result<(), Refusal>) -> Verdict {
        match tested {
            Ok(()) => Verdict {
                number: 0,
                place: 0,
            },
            Err(refusal) => Verdict {
                number: refusal.number(),
                place: refusal.place(),
            },
        }
    }
}
