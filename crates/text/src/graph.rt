// The answer for a graph of the text program's sizes, with memory of its own.
ghost use Rattle.std.specs.Prelude.{◌≡◌, ◌≤◌, length};
ghost use Rattle.digits.specs.Placed.{put};
ghost use Rattle.input.specs.Said.{verdict_of, params_of};
ghost use Rattle.printing.specs.Printed.{room};
ghost use Rattle.state.specs.Said.{counts_in};
ghost use Rattle.text.specs.Small.{Embeds, answer_of};

use input::{Graph, SpectralParams};
use spectral::Embedded;
use state::Memory;

// The one call in memory for 64 rows, 1,024 entries, 7 dimensions and 400 rounds; the seed is in `output`. The Ritz record is not printed.
fn embed(d: u64, params: SpectralParams, graph: Graph<'_>, output: &mut [f64]) -> Embedded
    requires { (length graph.starts.now ≤ 65) × (length graph.columns.now ≤ 1024) × (length output.old ≡ 448) × (params.rounds ≤ 400) }
    ensures { Embeds d (params_of params) graph.entry.starts.now graph.entry.columns.now graph.entry.values.now (verdict_of result.verdict) (counts_in result.counts) output.new }
{
    let mut inverse = [0.0; 64];
    let mut v0 = [0.0; 64];
    let mut edge_columns = [0u32; 1024];
    let mut edge_weights = [0.0; 1024];
    let mut block0 = [0.0; 960];
    let mut block1 = [0.0; 960];
    let mut block2 = [0.0; 960];
    let mut partials = [0.0; 225];
    let mut marks = [0u8; 1];
    let mut ritz_record = [0.0; 6400];
    let mut memory = Memory {
        inverse: &mut inverse,
        v0: &mut v0,
        edge_columns: &mut edge_columns,
        edge_weights: &mut edge_weights,
        block0: &mut block0,
        block1: &mut block1,
        block2: &mut block2,
        partials: &mut partials,
        output,
    };
    spectral::spectral_embedding(d, params, graph, &mut memory, &mut marks, &mut ritz_record)
}

// The answer for a small graph at these parameters, from the first byte on; the place behind it.
pub fn answer_graph(d: u64, params: SpectralParams, graph: Graph<'_>, out: &mut [u8]) -> usize
    requires { (length graph.starts.now ≤ 65) × (length graph.columns.now ≤ 1024) × (room ≤ length out.old) × (params.rounds ≤ 400) }
    ensures { (result ≡ length (answer_of d (params_of params) graph.entry.starts.now graph.entry.columns.now graph.entry.values.now)) × (result ≤ room)
        × (out.new ≡ put (answer_of d (params_of params) graph.entry.starts.now graph.entry.columns.now graph.entry.values.now) 0 out.old) }
{
    let mut output = [0.0; 448];
    let seed: &mut [f64] = &mut output;
    let embedded = embed(d, params, graph, seed);
    let verdict = embedded.verdict;
    let counts = embedded.counts;
    printing::write_answer(
        verdict,
        d,
        input::row_count(graph.starts),
        counts,
        seed,
        out,
    )
    .unwrap()
}
