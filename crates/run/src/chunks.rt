// A chunk of a stage: its work on the rows, entries and partial that are its own, and its mark. Chunks may come in any order.
ghost use Rattle.std.specs.Prelude.{◌≡◌, ◌<◌, length, set};
ghost use Rattle.definition.specs.Arith.{ieee64};
ghost use Rattle.machine.specs.Ready.{Ready};
ghost use Rattle.machine.specs.Work.{work};
ghost use Rattle.machine.specs.Calls.{chunk_call};
ghost use Rattle.state.specs.Said.{state_in, lists_of, lent_of, all_of, outcome_in, SamePlaces};
ghost use Rattle.stages.specs.Parts.{parts_of};

use crate::lengths::other_lengths;
use columns::marks::set_mark;
use input::{Graph, Verdict};
use stages::StateParts;
use state::{Answer, Memory, State};

// A chunk without its tests, for a caller that has shown what they ask: of the state the parts that a chunk's work reads.
pub fn work_chunk<'a, 'g, 'm>(
    parts: StateParts<'a>,
    h: usize,
    graph: Graph<'g>,
    memory: &mut Memory<'m>,
    marks: &mut [u8],
)
    requires ready { Ready ieee64 (parts_of parts) h (lists_of graph) (lent_of memory.old) }
    requires h_in_bounds { h < length marks.old }
    ensures memory_after { lent_of memory.new ≡ work ieee64 (parts_of parts.entry) (lists_of graph.entry) h (lent_of memory.old) }
    ensures same_places { SamePlaces memory.old memory.new }
    ensures marks_after { marks.new ≡ set marks.old h 1 }
{
    set_mark(marks, h);
    stages::chunk_work(parts, h, graph, memory);
}

// Does the work of chunk `number` in the state's stage, and marks it done. The state and the Ritz record stay as they are.
pub fn chunk<'g, 'm>(
    state: State,
    number: usize,
    graph: Graph<'g>,
    memory: &mut Memory<'m>,
    marks: &mut [u8],
    ritz_record: &[f64],
) -> Answer
    ensures answer { outcome_in result (all_of memory.new ritz_record.now) marks.new
        ≡ chunk_call ieee64 (state_in state) number (lists_of graph.entry) (all_of memory.old ritz_record.now) marks.old }
    ensures same_places { SamePlaces memory.old memory.new }
{
    let seen = memory.view();
    let tested = guard::test_chunk(
        state,
        number,
        graph,
        seen.edge_columns,
        &marks[..],
        other_lengths(seen, ritz_record),
    );
    let verdict = Verdict::from(tested);
    // By C's number, and named: so the must-fail edit, which asks for another number, meets the false fact. Of `tested.is_err()` (tried) it was
    // refused for its form alone, also where its meaning was right.
    let is_refused = verdict.number != 0;
    if is_refused {
        return Answer { verdict, state };
    }
    let parts = StateParts {
        asked: state.asked,
        progress: state.progress,
        totals: &state.totals,
        vectors: &state.vectors,
        order: &state.order,
    };
    work_chunk(parts, number, graph, memory, marks);
    Answer { verdict, state }
}
