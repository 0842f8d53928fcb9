// The one call: the test of the request once, then the whole run, chunks upward, through the held run's inner halves.
#![tactic(auto)]

ghost use Rattle.std.specs.Prelude.{◌≡◌, ℕ, ◌≤◌, ◌<◌, length};
ghost use Rattle.definition.specs.Arith.{ieee64};
ghost use Rattle.definition.specs.Memory.{fill_range};
ghost use Rattle.held.specs.Marks.{cleared};
ghost use Rattle.input.specs.Said.{params_of};
ghost use Rattle.machine.specs.State.{chunk_count, opened_state};
ghost use Rattle.machine.specs.Ready.{Ready};
ghost use Rattle.promises.specs.Promises.{Accepted};
ghost use Rattle.promises.specs.OneCall.{whole_call, end_of};
ghost use Rattle.state.specs.Said.{asked_in, counts_in, state_in, lists_of, lent_of, all_of, SamePlaces};
ghost use Rattle.spectral.specs.Said.{whole_in, done_up, params_asked};

use input::{Graph, SpectralParams, Verdict};
use stages::StateParts;
use state::{Counts, Memory, Stage, State};

// The verdict and the counts of the whole run; zero counts with a refusal. A record and no `Result`: C gets it of `threshcinch_spectral_embedding`.
#[repr(C)]
#[derive(Drop)]
pub struct Embedded {
    pub verdict: Verdict,
    pub counts: Counts,
}

// All chunks of the state's stage, upward.
fn all_chunks<'g, 'm>(state: State, graph: Graph<'g>, memory: &mut Memory<'m>, marks: &mut [u8])
    requires by_index { (h : ℕ) → h < chunk_count (asked_in state.asked) → Ready ieee64 (state_in state) h (lists_of graph)
        (done_up (state_in state) (lists_of graph) h (lent_of memory.old)) }
    requires asked_in_bounds { chunk_count (asked_in state.asked) ≤ length marks.old }
    ensures memory_after { lent_of memory.new
        ≡ done_up (state_in state) (lists_of graph.entry) (chunk_count (asked_in state.asked)) (lent_of memory.old) }
    ensures same_places { SamePlaces memory.old memory.new }
    ensures marks_after { marks.new ≡ fill_range 0 (chunk_count (asked_in state.asked)) (λ h. 1) marks.old }
{
    let asked = state.asked;
    let chunks = input::chunk_count(asked.rows);
    let parts = StateParts {
        asked,
        progress: state.progress,
        totals: &state.totals,
        vectors: &state.vectors,
        order: &state.order,
    };
    for h in 0..chunks {
        run::work_chunk(parts, h, graph, memory, marks);
    }
}

// Stage after stage, from the opened state to the end. A run has fewer than 2,000,000 stages, so the loop is always left by its return.
fn all_stages<'g, 'm>(
    state: State,
    graph: Graph<'g>,
    memory: &mut Memory<'m>,
    marks: &mut [u8],
    ritz_record: &mut [f64],
) -> Counts
    requires accepted { Accepted ieee64 state.asked.dims (params_asked (asked_in state.asked)) (lists_of graph)
        (all_of memory.old ritz_record.old) marks.old }
    requires state_value { state_in state ≡ opened_state ieee64 state.asked.dims (params_asked (asked_in state.asked)) (lists_of graph) }
    requires marks_value { marks.old ≡ cleared (chunk_count (asked_in state.asked)) marks.old }
    ensures result_value { counts_in result ≡ (end_of ieee64 state.asked.dims (params_asked (asked_in state.asked)) (lists_of graph.entry)
        (all_of memory.old ritz_record.old)).state.counts }
    ensures memory_after { all_of memory.new ritz_record.new
        ≡ (end_of ieee64 state.asked.dims (params_asked (asked_in state.asked)) (lists_of graph.entry) (all_of memory.old ritz_record.old)).mem }
    ensures same_places { SamePlaces memory.old memory.new }
    ensures marks_unchanged { marks.new ≡ marks.old }
{
    let mut reached = state;
    for closed in 0..2_000_000usize {
        let stage = reached.progress.stage;
        if stage == Stage::Ended.number() {
            return reached.counts;
        }
        all_chunks(reached, graph, memory, marks);
        let seen = memory.view();
        reached = run::close_stage(reached, seen.v0, seen.partials, marks, ritz_record);
    }
    reached.counts
}

// The seed of a graph: every lent list is left as the run's end leaves it, the seed in `output`,
// each round's bound and Ritz values in `ritz_record`. Refusals are 1 to 11; a refused call changes
// no lent number. It does what the held run does, in one call and in one order.
//
// Argument order as in crate `run`: what is asked, the graph, the lent memory.
pub fn spectral_embedding<'g, 'm>(
    d: u64,
    params: SpectralParams,
    graph: Graph<'g>,
    memory: &mut Memory<'m>,
    marks: &mut [u8],
    ritz_record: &mut [f64],
) -> Embedded
    ensures answer { whole_in result (all_of memory.new ritz_record.new) marks.new
        ≡ whole_call ieee64 d (params_of params) (lists_of graph.entry) (all_of memory.old ritz_record.old) marks.old }
    ensures same_places { SamePlaces memory.old memory.new }
{
    let opened = run::open(d, params, graph, memory.view(), marks, &ritz_record[..]);
    let verdict = opened.verdict;
    let is_refused = verdict.number != 0;
    if is_refused {
        let counts = Counts {
            passes: 0,
            refreshed: 0,
            zeroed: 0,
            isolated: 0,
        };
        return Embedded { verdict, counts };
    }
    let counts = all_stages(opened.state, graph, memory, marks, ritz_record);
    Embedded { verdict, counts }
}
