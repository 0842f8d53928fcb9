// The chunk work of the last four stages, on the rows of one chunk of the output. Each contract says what becomes of the whole lent
// memory, whatever the lists are that the stage leaves alone.
// They go in pairs that differ in one call, whose contract names the work of its own stage: a function of both would take that call and its
// clause as arguments, and be no plainer.
// What was asked and the chunk's number stand by themselves and not as a `Chunk`: these functions are public and ask no more than they did.
ghost use Rattle.std.specs.Prelude.{◌≡◌, List, ℕ, ◌+◌, ◌*◌, ◌≤◌, ◌<◌, Float, length};
ghost use Rattle.definition.specs.Arith.{ieee64};
ghost use Rattle.definition.specs.Numbers.{first_row};
ghost use Rattle.machine.specs.State.{chunk_count, wide};
ghost use Rattle.machine.specs.Ready.{AskedReady};
ghost use Rattle.machine.specs.Work.{sums_work, squares_work, centre_work, scale_work};
ghost use Rattle.state.specs.Said.{asked_in, lent_in};

use numbers::Rows;
use state::Asked;

// The chunk's rows of the output.
fn own_rows(asked: Asked, h: usize) -> Rows
    ensures n { result.n ≡ asked.rows }
    ensures width { result.width ≡ asked.dims }
    ensures first { result.first ≡ first_row asked.rows h }
    ensures end { result.end ≡ first_row asked.rows (h + 1) }
{
    Rows {
        n: asked.rows,
        width: asked.dims,
        first: input::first_row(asked.rows, h),
        end: input::end_row(asked.rows, h),
    }
}

// The place of its partial among the partials of all chunks.
fn own_partial(asked: Asked, h: usize) -> usize
    requires asked_ready { AskedReady (asked_in asked) }
    requires one_of { h < chunk_count (asked_in asked) }
    ensures { result ≡ h * (wide (asked_in asked) * wide (asked_in asked)) }
{
    let k = asked.width();
    h * (k * k)
}

// The chunk's partial of the columns' sums, at its own place among the partials.
pub fn sums_stage(asked: Asked, h: usize, output: &[f64], partials: &mut [f64])
    requires asked_ready { AskedReady (asked_in asked) }
    requires h_bound { (h < chunk_count (asked_in asked)) × (asked.rows * asked.dims ≤ length output.now)
        × (chunk_count (asked_in asked) * wide (asked_in asked) * wide (asked_in asked) ≤ length partials.old) }
    ensures { (inverse v0 : List Float) (edge_columns : List ℕ) (edge_weights block0 block1 block2 : List Float) →
        lent_in inverse v0 edge_columns edge_weights block0 block1 block2 partials.new output.now
        ≡ sums_work ieee64 (asked_in asked) h
        (lent_in inverse v0 edge_columns edge_weights block0 block1 block2 partials.old output.now) }
{
    sums::sums_partial(own_rows(asked, h), output, own_partial(asked, h), partials);
}

// The same of the columns' squares.
pub fn squares_stage(asked: Asked, h: usize, output: &[f64], partials: &mut [f64])
    requires asked_ready { AskedReady (asked_in asked) }
    requires h_bound { (h < chunk_count (asked_in asked)) × (asked.rows * asked.dims ≤ length output.now)
        × (chunk_count (asked_in asked) * wide (asked_in asked) * wide (asked_in asked) ≤ length partials.old) }
    ensures { (inverse v0 : List Float) (edge_columns : List ℕ) (edge_weights block0 block1 block2 : List Float) →
        lent_in inverse v0 edge_columns edge_weights block0 block1 block2 partials.new output.now
        ≡ squares_work ieee64 (asked_in asked) h
        (lent_in inverse v0 edge_columns edge_weights block0 block1 block2 partials.old output.now) }
{
    sums::squares_partial(own_rows(asked, h), output, own_partial(asked, h), partials);
}

// The means of the columns subtracted: `totals` has the columns' sums.
pub fn centre_stage(asked: Asked, totals: &[f64; 225], h: usize, output: &mut [f64])
    requires asked_ready { AskedReady (asked_in asked) }
    requires dims_in_bounds { asked.rows * asked.dims ≤ length output.old }
    ensures { (inverse v0 : List Float) (edge_columns : List ℕ) (edge_weights block0 block1 block2 partials : List Float) →
        lent_in inverse v0 edge_columns edge_weights block0 block1 block2 partials output.new
        ≡ centre_work ieee64 (asked_in asked) totals.now h
        (lent_in inverse v0 edge_columns edge_weights block0 block1 block2 partials output.old) }
{
    columns::output::centre_chunk(own_rows(asked, h), totals, output);
}

// The columns multiplied by their scales, which stand in `totals`.
pub fn scale_stage(asked: Asked, totals: &[f64; 225], h: usize, output: &mut [f64])
    requires asked_ready { AskedReady (asked_in asked) }
    requires dims_in_bounds { asked.rows * asked.dims ≤ length output.old }
    ensures { (inverse v0 : List Float) (edge_columns : List ℕ) (edge_weights block0 block1 block2 partials : List Float) →
        lent_in inverse v0 edge_columns edge_weights block0 block1 block2 partials output.new
        ≡ scale_work ieee64 (asked_in asked) totals.now h
        (lent_in inverse v0 edge_columns edge_weights block0 block1 block2 partials output.old) }
{
    columns::output::scale_chunk(own_rows(asked, h), totals, output);
}
