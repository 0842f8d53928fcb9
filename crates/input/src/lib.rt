// Parameters, chunk arithmetic and the test of a request: refusals 1 to 11 with their places.
// Each function equals its definition on every input.
#![tactic(auto)]

ghost use Rattle.std.specs.Prelude.{◌≡◌};
ghost use Rattle.definition.specs.Numbers.{defaults};
ghost use Rattle.definition.specs.Refusals.{test_rounds, test_degree, test_seed_std, set_rounds, set_degree, set_seed_std};
ghost use Rattle.input.specs.Said.{params_of, set_in, Answered};

mod chunks;
mod graph;
mod refusal;
mod request;
mod scan;

pub use chunks::{chunk_count, end_row, first_row};
pub use graph::Graph;
pub use refusal::Refusal;
pub use request::{
    lent_sizes, row_count, test_dims, test_graph, test_lent, test_params, test_request,
    test_rounds, test_seed_std, within,
};

// A refusal's number and its place; number 0 is no refusal. C gets it so.
#[repr(C)]
#[derive(Clone, Copy, Debug, PartialEq, Eq)]
pub struct Verdict {
    pub number: u64,
    pub place: u64,
}

// What a caller may set.
#[repr(C)]
#[derive(Clone, Copy)]
pub struct SpectralParams {
    pub rounds: u64,
    pub degree: u64,
    pub seed_std: f64,
}

// What a setter answers to C: the new parameters, or a refusal with the old ones.
#[repr(C)]
#[derive(Clone, Copy)]
pub struct Set {
    pub verdict: Verdict,
    pub params: SpectralParams,
}

impl Set {
    pub fn of(answer: Result<SpectralParams, Refusal>, old: SpectralParams) -> Set
        ensures { result ≡ set_in old answer }
    {
        match answer {
            Ok(new) => Set {
                verdict: Verdict {
                    number: 0,
                    place: 0,
                },
                params: new,
            },
            Err(refusal) => Set {
                verdict: Verdict {
                    number: refusal.number(),
                    place: refusal.place(),
                },
                params: old,
            },
        }
    }
}

impl SpectralParams {
    // Columns of the block beyond D.
    pub const OVERSAMPLING: usize = 8;

    pub const CHUNK_ROWS: usize = 4096;

    pub const DEFAULT_ROUNDS: u64 = 5;

    pub const DEFAULT_DEGREE: u64 = 20;

    pub const DEFAULT_SEED_STD: f64 = 1e-4;

    pub const DIMS_MOST: u64 = 7;

    pub const ROWS_MOST: usize = 1048576;

    pub const ENTRIES_MOST: usize = 67108864;

    pub const ROUNDS_MOST: u64 = 1000;

    pub const DEGREE_MOST: u64 = 1000;

    pub fn new() -> Self
        ensures { params_of result ≡ defaults }
    {
        Self {
            rounds: Self::DEFAULT_ROUNDS,
            degree: Self::DEFAULT_DEGREE,
            seed_std: Self::DEFAULT_SEED_STD,
        }
    }

    pub fn rounds(self, rounds: u64) -> Result<Self, Refusal>
        ensures { Answered (test_rounds rounds) (set_rounds (params_of self) rounds) (set_in self result) }
    {
        request::test_rounds(rounds)?;
        Ok(Self { rounds, ..self })
    }

    pub fn degree(self, degree: u64) -> Result<Self, Refusal>
        ensures { Answered (test_degree degree) (set_degree (params_of self) degree) (set_in self result) }
    {
        request::test_degree(degree)?;
        Ok(Self { degree, ..self })
    }

    pub fn seed_std(self, seed_std: f64) -> Result<Self, Refusal>
        ensures { Answered (test_seed_std seed_std) (set_seed_std (params_of self) seed_std) (set_in self result) }
    {
        request::test_seed_std(seed_std)?;
        Ok(Self { seed_std, ..self })
    }
}
