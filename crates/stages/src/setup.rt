// The chunk work of the first three stages, on the rows of one chunk. Each contract says what becomes of the whole lent memory, whatever
// the lists are that the stage leaves alone.
// What was asked and the chunk's number stand by themselves and not as a `Chunk`: these functions are public and ask no more than they did.
ghost use Rattle.std.specs.Prelude.{◌≡◌, List, ℕ, ◌+◌, ◌≤◌, ◌<◌, Float, length, get_or};
ghost use Rattle.definition.specs.Arith.{ieee64};
ghost use Rattle.definition.specs.Numbers.{first_row};
ghost use Rattle.definition.specs.Requirements.{Starts, Columns};
ghost use Rattle.machine.specs.State.{chunk_count};
ghost use Rattle.machine.specs.Ready.{AskedReady};
ghost use Rattle.machine.specs.Work.{degrees_work, edges_work, v0_work};
ghost use Rattle.state.specs.Said.{asked_in, lists_in, lent_in};

use state::Asked;

// Each row's inverse weight, and its root in v0's memory.
pub fn degrees_stage(
    asked: Asked,
    h: usize,
    starts: &[u64],
    values: &[f64],
    inverse: &mut [f64],
    v0: &mut [f64],
)
    requires starts { Starts starts.now (first_row asked.rows h) (first_row asked.rows (h + 1)) asked.entries }
    requires entries_in_bounds { (asked.entries ≤ length values.now) × (asked.rows ≤ length inverse.old) × (asked.rows ≤ length v0.old) }
    ensures { (columns edge_columns : List ℕ) (edge_weights block0 block1 block2 partials output : List Float) →
        lent_in inverse.new v0.new edge_columns edge_weights block0 block1 block2 partials output
        ≡ degrees_work ieee64 (asked_in asked) (lists_in starts.now columns values.now) h
        (lent_in inverse.old v0.old edge_columns edge_weights block0 block1 block2 partials output) }
{
    let n = asked.rows;
    rows::degrees_chunk(
        input::first_row(n, h),
        input::end_row(n, h),
        starts,
        values,
        inverse,
        v0,
    );
}

// Each row's entries by column, with their weights. A run reads as many columns and values as it was opened with.
pub fn edges_stage(
    asked: Asked,
    h: usize,
    starts: &[u64],
    columns: &[u32],
    values: &[f64],
    inverse: &[f64],
    edge_columns: &mut [u32],
    edge_weights: &mut [f64],
)
    requires asked_ready { AskedReady (asked_in asked) }
    requires starts { Starts starts.now (first_row asked.rows h) (first_row asked.rows (h + 1)) asked.entries }
    requires columns { Columns columns.now (get_or starts.now (first_row asked.rows h) 0) (get_or starts.now (first_row asked.rows (h + 1)) 0) asked.rows }
    requires entries_in_bounds { (asked.entries ≤ length columns.now) × (asked.entries ≤ length values.now) × (asked.rows ≤ length inverse.now) }
    requires entries_in_bounds_2 { (asked.entries ≤ length edge_columns.old) × (asked.entries ≤ length edge_weights.old) }
    ensures { (v0 block0 block1 block2 partials output : List Float) →
        lent_in inverse.now v0 edge_columns.new edge_weights.new block0 block1 block2 partials output
        ≡ edges_work ieee64 (asked_in asked) (lists_in starts.now columns.now values.now) h
        (lent_in inverse.now v0 edge_columns.old edge_weights.old block0 block1 block2 partials output) }
{
    let n = asked.rows;
    let m = asked.entries;
    edges::edges_chunk(
        input::first_row(n, h),
        input::end_row(n, h),
        starts,
        &columns[..m],
        &values[..m],
        inverse,
        edge_columns,
        edge_weights,
    );
}

// Each root made v0 where it stands, by the norm of all roots.
pub fn v0_stage(asked: Asked, norm: f64, h: usize, v0: &mut [f64])
    requires { asked.rows ≤ length v0.old }
    ensures { (inverse : List Float) (edge_columns : List ℕ) (edge_weights block0 block1 block2 partials output : List Float) →
        lent_in inverse v0.new edge_columns edge_weights block0 block1 block2 partials output
        ≡ v0_work ieee64 (asked_in asked) norm h
        (lent_in inverse v0.old edge_columns edge_weights block0 block1 block2 partials output) }
{
    let n = asked.rows;
    rows::v0_chunk(input::first_row(n, h), input::end_row(n, h), norm, v0);
}
