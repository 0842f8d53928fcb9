// What a call of an open run tests, in document 01's order: a chunk 16, 15, 12, 13; closing 16, 15, 14.
ghost use Rattle.std.specs.Prelude.{◌≡◌, ◌<◌, length};
ghost use Rattle.definition.specs.Arith.{ieee64};
ghost use Rattle.input.specs.Said.{verdict_in};
ghost use Rattle.machine.specs.State.{Lent};
ghost use Rattle.machine.specs.Ranges.{test_chunk, test_close};
ghost use Rattle.state.specs.Said.{asked_in, state_in, lists_of};
ghost use Rattle.guard.specs.Rows.{ChunkLists, begun_test, own_test, other_lengths};

use crate::ranges::{Sound, fields_sound, is_open};
use crate::rows::{lists_sound, own_lengths, rows_sound};
use columns::marks::{first_undone, marks_sound};
use input::{Graph, Refusal};
use state::State;

// What both calls test first: the state, that a run is open, and that the lists are long enough for it.
fn test_begun(state: &State, graph: Graph<'_>, lengths: [usize; 11]) -> Result<(), Refusal>
    ensures { verdict_in result ≡ begun_test (state_in state.now) (lists_of graph.entry) lengths }
{
    if !fields_sound(state) {
        return Err(Refusal::State);
    }
    if !is_open(state.progress.stage) {
        return Err(Refusal::NoRun);
    }
    let a = Sound { asked: state.asked };
    if !lists_sound(a, graph, lengths) {
        return Err(Refusal::State);
    }
    Ok(())
}

// What is left to test of a chunk below C, once the lists are long enough: its mark and its rows, and that it is not done.
#[tactic(auto, using(crate::proofs::Verdicts::own_laws))]
fn test_own(
    stage: usize,
    a: Sound,
    h: usize,
    graph: Graph<'_>,
    edge_columns: &[u32],
    marks: &[u8],
) -> Result<(), Refusal>
    requires chunk_lists { ChunkLists (asked_in a.asked) graph.starts.now graph.columns.now edge_columns.now h }
    requires h_in_bounds { h < length marks.now }
    ensures { verdict_in result ≡ own_test stage (asked_in a.asked) graph.entry.starts.now graph.entry.columns.now edge_columns.now marks.now h }
{
    let mark = marks[h];
    if 1 < mark {
        return Err(Refusal::State);
    }
    if !rows_sound(stage, a, h, graph, edge_columns) {
        return Err(Refusal::State);
    }
    if mark != 0 {
        return Err(Refusal::Done(h));
    }
    Ok(())
}

// Whether the chunk `number` may be worked on now. The lengths are those of the other lent lists, in document 01's order: all but the edge
// columns and the marks.
pub fn test_chunk(
    state: State,
    number: usize,
    graph: Graph<'_>,
    edge_columns: &[u32],
    marks: &[u8],
    lengths: [usize; 9],
) -> Result<(), Refusal>
    ensures { (m : Lent ieee64) → m.edge_columns ≡ edge_columns.now → other_lengths m ≡ lengths → verdict_in result ≡ test_chunk ieee64 (state_in state) number (lists_of graph.entry) m marks.now }
{
    let asked = state.asked;
    let progress = state.progress;
    let own = own_lengths(lengths, edge_columns.len(), marks.len());
    test_begun(&state, graph, own)?;
    if input::chunk_count(asked.rows) <= number {
        return Err(Refusal::Chunk(number));
    }
    let a = Sound { asked };
    test_own(progress.stage, a, number, graph, edge_columns, marks)
}

// Whether the stage may be closed now. The lengths are those of the other lent lists, as for a chunk.
pub fn test_close(
    state: State,
    graph: Graph<'_>,
    edge_columns: &[u32],
    marks: &[u8],
    lengths: [usize; 9],
) -> Result<(), Refusal>
    ensures { (m : Lent ieee64) → m.edge_columns ≡ edge_columns.now → other_lengths m ≡ lengths → verdict_in result ≡ test_close ieee64 (state_in state) (lists_of graph.entry) m marks.now }
{
    let asked = state.asked;
    let own = own_lengths(lengths, edge_columns.len(), marks.len());
    test_begun(&state, graph, own)?;
    let chunks = input::chunk_count(asked.rows);
    if !marks_sound(marks, chunks) {
        return Err(Refusal::State);
    }
    let lowest = first_undone(marks, chunks);
    if lowest < chunks {
        return Err(Refusal::Undone(lowest));
    }
    Ok(())
}
