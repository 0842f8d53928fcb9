// Opening: the request is tested, the marks are cleared, and the run stands before its first stage.
ghost use Rattle.std.specs.Prelude.{◌≡◌};
ghost use Rattle.definition.specs.Arith.{ieee64};
ghost use Rattle.input.specs.Said.{params_of};
ghost use Rattle.machine.specs.State.{begun_at, opened_state, empty_state};
ghost use Rattle.machine.specs.Calls.{open_call};
ghost use Rattle.state.specs.Said.{asked_in, state_in, lists_of, all_seen, outcome_in};

use columns::marks::clear_marks;
use input::{Graph, SpectralParams, Verdict};
use state::{Answer, Asked, Counts, MemoryView, Progress, State};

// At a stage, with nothing done yet: all numbers are 0 but the filter's first bound and the alpha that it sets.
fn begun_at(stage: usize, asked: Asked) -> State
    ensures { state_in result ≡ begun_at ieee64 stage (asked_in asked) }
{
    let bound = 0.75;
    let alpha = numbers::first_alpha(bound);
    let progress = Progress {
        stage,
        round: 0,
        pass: 0,
        column: 0,
        attempt: 0,
        current: 0,
        previous: 0,
        bound,
        alpha,
        before: 0.0,
        norm: 0.0,
    };
    let counts = Counts {
        passes: 0,
        refreshed: 0,
        zeroed: 0,
        isolated: 0,
    };
    let zeros = [0.0; 225];
    let order = [0; 15];
    State {
        asked,
        progress,
        counts,
        totals: zeros,
        matrix: zeros,
        vectors: zeros,
        order,
    }
}

// Where no run is open: the least numbers allowed.
fn empty_state() -> State
    ensures { state_in result ≡ empty_state ieee64 }
{
    let asked = Asked {
        dims: 1,
        rows: 1,
        entries: 0,
        rounds: 1,
        degree: 1,
        seed_std: SpectralParams::DEFAULT_SEED_STD,
    };
    begun_at(0, asked)
}

// Before the first stage of what was asked. The values of the graph have no part in it.
fn opened_state(d: u64, params: SpectralParams, graph: Graph<'_>) -> State
    ensures { state_in result ≡ opened_state ieee64 d (params_of params) (lists_of graph.entry) }
{
    let asked = Asked {
        dims: d as usize,
        rows: input::row_count(graph.starts),
        entries: graph.columns.len(),
        rounds: params.rounds as usize,
        degree: params.degree as usize,
        seed_std: params.seed_std,
    };
    begun_at(1, asked)
}

// Opens a run. Only the first C marks are written.
pub fn open<'g, 'm>(
    d: u64,
    params: SpectralParams,
    graph: Graph<'g>,
    memory: MemoryView<'m>,
    marks: &mut [u8],
    ritz_record: &[f64],
) -> Answer
    ensures { outcome_in result (all_seen memory.entry ritz_record.now) marks.new
        ≡ open_call ieee64 d (params_of params) (lists_of graph.entry) (all_seen memory.entry ritz_record.now) marks.old }
{
    let lengths = memory.lengths(&marks[..], ritz_record);
    let tested = input::test_request(d, params, graph, lengths);
    let verdict = Verdict::from(tested);
    if tested.is_err() {
        let state = empty_state();
        return Answer { verdict, state };
    }
    let n = input::row_count(graph.starts);
    clear_marks(marks, input::chunk_count(n));
    let state = opened_state(d, params, graph);
    Answer { verdict, state }
}
