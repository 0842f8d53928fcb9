// The library for C, Rust and Python: every function here can be called from outside, and none asks for anything first. include/threshcinch.h
// says in words what each contract says.
//
// A slice crosses as its address and its length, a record by value. A refusal crosses in such a record, as `Verdict`, `Set`, `Sizes`, `Answer`
// and `Embedded` have it: C has no `Result`.
#![tactic(auto)]

ghost use Rattle.std.specs.Prelude.{◌≡◌, ◌||◌, ltb};
ghost use Rattle.definition.specs.Arith.{ieee64};
ghost use Rattle.definition.specs.Numbers.{chunks, defaults, rows_most, entries_most};
ghost use Rattle.definition.specs.Refusals.{test_rounds, test_degree, test_seed_std, set_rounds, set_degree, set_seed_std};
ghost use Rattle.input.specs.Said.{verdict_of, verdict_in, params_of, Answered};
ghost use Rattle.machine.specs.Calls.{open_call, chunk_call, close_call};
ghost use Rattle.machine.specs.Progress.{calls_accepted, calls_owed};
ghost use Rattle.promises.specs.OneCall.{whole_call};
ghost use Rattle.spectral.specs.Said.{whole_in};
ghost use Rattle.state.specs.Said.{state_in, lists_in, lent_all, outcome_in};
ghost use Rattle.threshcinch.specs.Said.{test_sizes, sizes_by};

use input::{Graph, Refusal, Set, SpectralParams, Verdict};
use spectral::Embedded;
use state::{Answer, Memory, MemoryView, State};

mod markets; // Matrix Market files
mod texts; // run files and answers

// The sizes of the lent memory, 0 to 10 in document 01's order, in elements; zeros with a refusal.
#[repr(C)]
#[derive(Drop)]
pub struct Sizes {
    pub verdict: Verdict,
    pub lengths: [usize; 11],
}

// ---- parameters

#[unsafe(no_mangle)]
pub extern "C" fn threshcinch_params_new() -> SpectralParams
    ensures { params_of result ≡ defaults }
{
    SpectralParams::new()
}

#[unsafe(no_mangle)]
pub extern "C" fn threshcinch_params_rounds(params: SpectralParams, rounds: u64) -> Set
    ensures { Answered (test_rounds rounds) (set_rounds (params_of params) rounds) result }
{
    Set::of(params.rounds(rounds), params)
}

#[unsafe(no_mangle)]
pub extern "C" fn threshcinch_params_degree(params: SpectralParams, degree: u64) -> Set
    ensures { Answered (test_degree degree) (set_degree (params_of params) degree) result }
{
    Set::of(params.degree(degree), params)
}

#[unsafe(no_mangle)]
pub extern "C" fn threshcinch_params_seed_std(params: SpectralParams, seed_std: f64) -> Set
    ensures { Answered (test_seed_std seed_std) (set_seed_std (params_of params) seed_std) result }
{
    Set::of(params.seed_std(seed_std), params)
}

// ---- sizes

#[unsafe(no_mangle)]
pub extern "C" fn threshcinch_chunk_count(rows: usize) -> usize
    ensures { result ≡ chunks rows }
{
    input::chunk_count(rows)
}

// More rows or entries than a graph may have.
fn is_over(rows: usize, entries: usize) -> bool
    ensures { result ≡ (ltb rows_most rows || ltb entries_most entries) }
{
    SpectralParams::ROWS_MOST < rows || SpectralParams::ENTRIES_MOST < entries
}

// 1, 2, 3 and 8, as the opening would refuse such a graph and rounds.
fn test_sizes(d: u64, rounds: u64, rows: usize, entries: usize) -> Result<(), Refusal>
    ensures { verdict_in result ≡ test_sizes d rounds rows entries }
{
    input::test_dims(d)?;
    if rows < 1 {
        return Err(Refusal::Rows);
    }
    if is_over(rows, entries) {
        return Err(Refusal::Limits);
    }
    input::test_rounds(rounds)
}

// How long each lent list must at least be. Refusals 1, 2, 3 and 8 are those that the opening would answer for such a graph and rounds.
#[unsafe(no_mangle)]
pub extern "C" fn threshcinch_lent_sizes(d: u64, rounds: u64, rows: usize, entries: usize) -> Sizes
    ensures verdict_value { verdict_of result.verdict ≡ test_sizes d rounds rows entries }
    ensures lengths_value { result.lengths ≡ sizes_by (test_sizes d rounds rows entries) d rounds rows entries }
{
    let tested = test_sizes(d, rounds, rows, entries);
    let verdict = Verdict::from(tested);
    if tested.is_err() {
        let lengths = [0; 11];
        return Sizes { verdict, lengths };
    }
    let lengths = input::lent_sizes(d as usize, rounds as usize, rows, entries);
    Sizes { verdict, lengths }
}

// ---- the one call

#[unsafe(no_mangle)]
pub extern "C" fn threshcinch_spectral_embedding(
    d: u64,
    params: SpectralParams,
    starts: &[u64],
    columns: &[u32],
    values: &[f64],
    inverse: &mut [f64],
    v0: &mut [f64],
    edge_columns: &mut [u32],
    edge_weights: &mut [f64],
    block0: &mut [f64],
    block1: &mut [f64],
    block2: &mut [f64],
    partials: &mut [f64],
    marks: &mut [u8],
    output: &mut [f64],
    ritz_record: &mut [f64],
) -> Embedded
    ensures { whole_in result
        (lent_all inverse.new v0.new edge_columns.new edge_weights.new
        block0.new block1.new block2.new partials.new output.new ritz_record.new)
        marks.new
        ≡ whole_call ieee64 d (params_of params) (lists_in starts.now columns.now values.now)
        (lent_all inverse.old v0.old edge_columns.old edge_weights.old
        block0.old block1.old block2.old partials.old output.old ritz_record.old)
        marks.old }
{
    let graph = Graph {
        starts,
        columns,
        values,
    };
    let mut memory = Memory {
        inverse,
        v0,
        edge_columns,
        edge_weights,
        block0,
        block1,
        block2,
        partials,
        output,
    };
    spectral::spectral_embedding(d, params, graph, &mut memory, marks, ritz_record)
}

// ---- the held run

#[unsafe(no_mangle)]
pub extern "C" fn threshcinch_open(
    d: u64,
    params: SpectralParams,
    starts: &[u64],
    columns: &[u32],
    values: &[f64],
    inverse: &[f64],
    v0: &[f64],
    edge_columns: &[u32],
    edge_weights: &[f64],
    block0: &[f64],
    block1: &[f64],
    block2: &[f64],
    partials: &[f64],
    marks: &mut [u8],
    output: &[f64],
    ritz_record: &[f64],
) -> Answer
    ensures { outcome_in result
        (lent_all inverse.now v0.now edge_columns.now edge_weights.now
        block0.now block1.now block2.now partials.now output.now ritz_record.now)
        marks.new
        ≡ open_call ieee64 d (params_of params) (lists_in starts.now columns.now values.now)
        (lent_all inverse.now v0.now edge_columns.now edge_weights.now
        block0.now block1.now block2.now partials.now output.now ritz_record.now)
        marks.old }
{
    let graph = Graph {
        starts,
        columns,
        values,
    };
    let memory = MemoryView {
        inverse,
        v0,
        edge_columns,
        edge_weights,
        block0,
        block1,
        block2,
        partials,
        output,
    };
    run::open(d, params, graph, memory, marks, ritz_record)
}

#[unsafe(no_mangle)]
pub extern "C" fn threshcinch_chunk(
    state: State,
    number: usize,
    starts: &[u64],
    columns: &[u32],
    values: &[f64],
    inverse: &mut [f64],
    v0: &mut [f64],
    edge_columns: &mut [u32],
    edge_weights: &mut [f64],
    block0: &mut [f64],
    block1: &mut [f64],
    block2: &mut [f64],
    partials: &mut [f64],
    marks: &mut [u8],
    output: &mut [f64],
    ritz_record: &[f64],
) -> Answer
    ensures { outcome_in result
        (lent_all inverse.new v0.new edge_columns.new edge_weights.new
        block0.new block1.new block2.new partials.new output.new ritz_record.now)
        marks.new
        ≡ chunk_call ieee64 (state_in state) number (lists_in starts.now columns.now values.now)
        (lent_all inverse.old v0.old edge_columns.old edge_weights.old
        block0.old block1.old block2.old partials.old output.old ritz_record.now)
        marks.old }
{
    let graph = Graph {
        starts,
        columns,
        values,
    };
    let mut memory = Memory {
        inverse,
        v0,
        edge_columns,
        edge_weights,
        block0,
        block1,
        block2,
        partials,
        output,
    };
    run::chunk(state, number, graph, &mut memory, marks, ritz_record)
}

#[unsafe(no_mangle)]
pub extern "C" fn threshcinch_close(
    state: State,
    starts: &[u64],
    columns: &[u32],
    values: &[f64],
    inverse: &[f64],
    v0: &[f64],
    edge_columns: &[u32],
    edge_weights: &[f64],
    block0: &[f64],
    block1: &[f64],
    block2: &[f64],
    partials: &[f64],
    marks: &mut [u8],
    output: &[f64],
    ritz_record: &mut [f64],
) -> Answer
    ensures { outcome_in result
        (lent_all inverse.now v0.now edge_columns.now edge_weights.now
        block0.now block1.now block2.now partials.now output.now ritz_record.new)
        marks.new
        ≡ close_call ieee64 (state_in state) (lists_in starts.now columns.now values.now)
        (lent_all inverse.now v0.now edge_columns.now edge_weights.now
        block0.now block1.now block2.now partials.now output.now ritz_record.old)
        marks.old }
{
    let graph = Graph {
        starts,
        columns,
        values,
    };
    let memory = MemoryView {
        inverse,
        v0,
        edge_columns,
        edge_weights,
        block0,
        block1,
        block2,
        partials,
        output,
    };
    run::close(state, graph, memory, marks, ritz_record)
}

// Calls accepted in the stages that are closed.
#[unsafe(no_mangle)]
pub extern "C" fn threshcinch_calls_accepted(state: State) -> usize
    ensures { result ≡ calls_accepted ieee64 (state_in state) }
{
    run::calls_accepted(state)
}

// Calls that the run owes if no further column is refreshed.
#[unsafe(no_mangle)]
pub extern "C" fn threshcinch_calls_owed(state: State) -> usize
    ensures { result ≡ calls_owed ieee64 (state_in state) }
{
    run::calls_owed(state)
}
