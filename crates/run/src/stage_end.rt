// Closing a stage: the serial part is done, the marks are cleared, a round that ends is recorded, and the run stands before its next stage.
ghost use Rattle.std.specs.Prelude.{◌≡◌, ◌+◌, ◌*◌, ◌≤◌, length};
ghost use Rattle.definition.specs.Arith.{ieee64};
ghost use Rattle.held.specs.Marks.{cleared};
ghost use Rattle.machine.specs.State.{stage_of, wide, chunk_count};
ghost use Rattle.machine.specs.Ready.{StateReady};
ghost use Rattle.machine.specs.Closing.{closed_by, record_after};
ghost use Rattle.machine.specs.Calls.{close_call};
ghost use Rattle.state.specs.Said.{asked_in, state_in, lists_of, all_seen, outcome_in};

use crate::lengths::other_lengths;
use columns::marks::clear_marks;
use input::{Graph, Verdict};
use state::{Answer, MemoryView, State};

// Closing without its tests, for a caller that has shown what they ask.
pub fn close_stage(
    state: State,
    v0: &[f64],
    partials: &[f64],
    marks: &mut [u8],
    ritz_record: &mut [f64],
) -> State
    requires state_ready { StateReady ieee64 (state_in state) }
    requires rows_in_bounds { (state.asked.rows ≤ length v0.now)
        × (chunk_count (asked_in state.asked) * wide (asked_in state.asked) * wide (asked_in state.asked) ≤ length partials.now) }
    requires asked_in_bounds { chunk_count (asked_in state.asked) ≤ length marks.old }
    requires asked_in_bounds_2 { state.asked.rounds * (wide (asked_in state.asked) + 1) ≤ length ritz_record.old }
    ensures result_value { state_in result ≡ closed_by ieee64 (stage_of state.progress.stage) (state_in state) v0.now partials.now }
    ensures marks_after { marks.new ≡ cleared (chunk_count (asked_in state.asked)) marks.old }
    ensures ritz_record_after { ritz_record.new ≡ record_after ieee64 (state_in state) (state_in result) ritz_record.old }
{
    let asked = state.asked;
    clear_marks(marks, input::chunk_count(asked.rows));
    closing::close_stage(state, v0, partials, ritz_record)
}

// Closes the stage, once each of its chunks is done. Only the first C marks are written and, when the products close, their round's places
// of the Ritz record.
pub fn close<'g, 'm>(
    state: State,
    graph: Graph<'g>,
    memory: MemoryView<'m>,
    marks: &mut [u8],
    ritz_record: &mut [f64],
) -> Answer
    ensures { outcome_in result (all_seen memory.entry ritz_record.new) marks.new
        ≡ close_call ieee64 (state_in state) (lists_of graph.entry) (all_seen memory.entry ritz_record.old) marks.old }
{
    let tested = guard::test_close(
        state,
        graph,
        memory.edge_columns,
        &marks[..],
        other_lengths(memory, &ritz_record[..]),
    );
    let verdict = Verdict::from(tested);
    if tested.is_err() {
        return Answer { verdict, state };
    }
    let next = close_stage(state, memory.v0, memory.partials, marks, ritz_record);
    Answer {
        verdict,
        state: next,
    }
}
