// What C, Rust and the benchmark link of input, under their C names.
#![tactic(auto)]

ghost use Rattle.std.specs.Prelude.{◌≡◌};
ghost use Rattle.definition.specs.Arith.{ieee64};
ghost use Rattle.definition.specs.Memory.{wholes_of};
ghost use Rattle.definition.specs.Numbers.{chunks};
ghost use Rattle.definition.specs.Refusals.{test_request};
ghost use Rattle.input.specs.Said.{verdict_of, params_of};

use input::{Graph, SpectralParams, Verdict};

// The lengths of the lent memory, 0 to 10: C hands over no array by value.
#[repr(C)]
#[derive(Clone, Copy)]
pub struct Lent {
    pub lengths: [usize; 11],
}

#[unsafe(no_mangle)]
pub extern "C" fn input_chunk_count(n: usize) -> usize
    ensures { result ≡ chunks n }
{
    input::chunk_count(n)
}

#[unsafe(no_mangle)]
pub extern "C" fn input_test_request(
    d: u64,
    params: SpectralParams,
    starts: &[u64],
    columns: &[u32],
    values: &[f64],
    lent: Lent,
) -> Verdict
    ensures { verdict_of result ≡ test_request ieee64 d (params_of params) starts.now columns.now values.now (wholes_of lent.lengths) }
{
    let graph = Graph {
        starts,
        columns,
        values,
    };
    Verdict::from(input::test_request(d, params, graph, lent.lengths))
}
