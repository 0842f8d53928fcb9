// What a call needs of the graph's lists and of lent memory: their lengths, and for a chunk that it names the starts, the
// columns and the mark of that chunk, where the stage reads them.
ghost use Rattle.std.specs.Prelude.{◌≡◌, ◌+◌, ◌≤◌, ◌<◌, length};
ghost use Rattle.definition.specs.Arith.{ieee64};
ghost use Rattle.definition.specs.Numbers.{first_row};
ghost use Rattle.definition.specs.Requirements.{Starts};
ghost use Rattle.machine.specs.State.{chunk_count};
ghost use Rattle.machine.specs.Ranges.{starts_sound, columns_sound, lists_enough};
ghost use Rattle.state.specs.Said.{asked_in, lists_of};
ghost use Rattle.guard.specs.Rows.{ChunkLists, rows_test, lists_test, own_lengths};

use crate::ranges::Sound;
use input::Graph;
use state::{Asked, Stage};

// No row of chunk h starts above the next one, and none of its entries lies past the entry count. Where no start falls the last one is
// the highest, so that it alone is held to the count.
pub fn starts_sound(a: Asked, h: usize, starts: &[u64]) -> bool
    requires h_bound { h < chunk_count (asked_in a) }
    requires rows_in_bounds { a.rows < length starts.now }
    ensures { result ≡ starts_sound (asked_in a) starts.now h }
{
    let n = a.rows;
    let entries = a.entries as u64;
    let end = input::end_row(n, h);
    for i in input::first_row(n, h)..end {
        if starts[i + 1] < starts[i] {
            return false;
        }
    }
    starts[end] <= entries
}

// The columns of chunk h's entries are below n. It looks at all of them, whatever it has found: a loop with one way out is compiled for
// several columns at a time.
pub fn columns_sound(a: Sound, h: usize, starts: &[u64], columns: &[u32]) -> bool
    requires starts { Starts starts.now (first_row a.asked.rows h) (first_row a.asked.rows (h + 1)) a.asked.entries }
    requires entries_in_bounds { a.asked.entries ≤ length columns.now }
    ensures { result ≡ columns_sound (asked_in a.asked) starts.now columns.now h }
{
    let n = a.asked.rows;
    let first_row = input::first_row(n, h);
    let end_row = input::end_row(n, h);
    let end = starts[end_row] as usize;
    let last = (n - 1) as u32;
    let mut found = false;
    for p in starts[first_row] as usize..end {
        found |= last < columns[p];
    }
    !found
}

// The starts of the chunk where this stage reads them, and the columns of its entries: the graph's as the edges are made, the
// lent ones in the filter's passes and the plain pass.
pub fn rows_sound(stage: usize, a: Sound, h: usize, graph: Graph<'_>, edge_columns: &[u32]) -> bool
    requires { ChunkLists (asked_in a.asked) graph.starts.now graph.columns.now edge_columns.now h }
    ensures { result ≡ rows_test stage (asked_in a.asked) graph.entry.starts.now graph.entry.columns.now edge_columns.now h }
{
    let starts = graph.starts;
    match Stage::from(stage) {
        Stage::Degrees => starts_sound(a.asked, h, starts),
        Stage::Edges => starts_sound(a.asked, h, starts)
            && columns_sound(a, h, starts, graph.columns),
        Stage::FilterPass | Stage::PlainPass => {
            starts_sound(a.asked, h, starts) && columns_sound(a, h, starts, edge_columns)
        }
        _ => true,
    }
}

// The graph's lists are long enough for the state.
fn lists_enough(a: Asked, graph: Graph<'_>) -> bool
    ensures { result ≡ lists_enough ieee64 (asked_in a) (lists_of graph.entry) }
{
    a.rows < graph.starts.len()
        && (a.entries <= graph.columns.len() && a.entries <= graph.values.len())
}

// The lengths of lent memory 0 to 10, from those of the lists that a test does not get, and those of the two that it gets. Arrays and no
// struct: document 01 numbers the lent memory, `input::lent_sizes` answers its sizes by that number, and refusal 11 names one by it.
pub fn own_lengths(lengths: [usize; 9], edge_columns: usize, marks: usize) -> [usize; 11]
    ensures { result ≡ own_lengths lengths edge_columns marks }
{
    [
        lengths[0],
        lengths[1],
        edge_columns,
        lengths[2],
        lengths[3],
        lengths[4],
        lengths[5],
        lengths[6],
        marks,
        lengths[7],
        lengths[8],
    ]
}

// All lists are: the graph's, and lent memory of these lengths.
pub fn lists_sound(a: Sound, graph: Graph<'_>, lengths: [usize; 11]) -> bool
    ensures { result ≡ lists_test (asked_in a.asked) (lists_of graph.entry) lengths }
{
    let asked = a.asked;
    lists_enough(asked, graph)
        && input::test_lent(asked.dims, asked.rounds, asked.rows, asked.entries, lengths).is_ok()
}
