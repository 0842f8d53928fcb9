// What a held run keeps between calls, as records by value: numbers and arrays only, so that a host may store them and go on from them.
// docs/STATE.md has each field with its meaning, its range and who sets it.
#![tactic(auto)]

ghost use Rattle.std.specs.Prelude.{◌≡◌, ◌≤◌, ◌||◌, eqb};
ghost use Rattle.definition.specs.Numbers.{dims_most};
ghost use Rattle.machine.specs.State.{wide};
ghost use Rattle.machine.specs.Work.{free_block};
ghost use Rattle.state.specs.Said.{asked_in};

use input::{SpectralParams, Verdict};

mod stage; // stage.rt: the stages, and their numbers

pub use stage::Stage;

mod lent; // what a run is lent

pub use lent::{Memory, MemoryView};

// What was asked at the opening.
#[repr(C)]
#[derive(Clone, Copy)]
pub struct Asked {
    pub dims: usize,
    pub rows: usize,
    pub entries: usize,
    pub rounds: usize,
    pub degree: usize,
    pub seed_std: f64,
}

impl Asked {
    // k, the columns of a block.
    pub fn width(self) -> usize
        requires { self.dims ≤ dims_most }
        ensures { result ≡ wide (asked_in self) }
    {
        self.dims + SpectralParams::OVERSAMPLING
    }
}

// Where the run is, with the bound and alpha of its filter and the norms of the column at hand. The stage is kept by its number, since hosts
// store the record as it lies (docs/STATE.md).
#[repr(C)]
#[derive(Clone, Copy)]
pub struct Progress {
    pub stage: usize,
    pub round: usize,
    pub pass: usize,
    pub column: usize,
    pub attempt: usize,
    pub current: usize,
    pub previous: usize,
    pub bound: f64,
    pub alpha: f64,
    pub before: f64,
    pub norm: f64,
}

// Passes closed; columns refreshed and zeroed over all rounds; rows whose root was not above 1e-12, 0 until the degrees close.
#[repr(C)]
#[derive(Clone, Copy)]
pub struct Counts {
    pub passes: usize,
    pub refreshed: usize,
    pub zeroed: usize,
    pub isolated: usize,
}

#[repr(C)]
#[derive(Clone, Copy)]
pub struct State {
    pub asked: Asked,
    pub progress: Progress,
    pub counts: Counts,
    pub totals: [f64; 225],
    pub matrix: [f64; 225],
    pub vectors: [f64; 225],
    pub order: [usize; 15],
}

// What each call answers.
#[repr(C)]
#[derive(Clone, Copy)]
pub struct Answer {
    pub verdict: Verdict,
    pub state: State,
}

// Whether a pass over blocks c and p reads block b.
fn reads_block(c: usize, p: usize, b: usize) -> bool
    ensures { result ≡ (eqb c b || eqb p b) }
{
    c == b || p == b
}

// The first block in lent order that a pass over blocks c and p doesn't read.
pub fn free_block(c: usize, p: usize) -> usize
    ensures { result ≡ free_block c p }
{
    let first = reads_block(c, p, 0);
    let second = reads_block(c, p, 1);
    if !first {
        return 0;
    }
    if second { 2 } else { 1 }
}
