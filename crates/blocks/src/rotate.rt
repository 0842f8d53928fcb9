// The stage that turns the current block into output.
ghost use Rattle.std.specs.Prelude.{◌≡◌, List, ℕ, ◌*◌, ◌≤◌, ◌<◌, Float, length, get_or};
ghost use Rattle.definition.specs.Arith.{ieee64};
ghost use Rattle.machine.specs.State.{wide, order_room};
ghost use Rattle.machine.specs.Work.{rotate_work};
ghost use Rattle.state.specs.Said.{asked_in, progress_in, lent_in};

use crate::choice::Blocks;
use columns::output::Ritz;
use numbers::Rows;

// The current block turned onto the first D Ritz vectors, and unscaled. One lifetime for vectors and
// order, which a caller may keep in one record.
pub fn rotate_stage<'a>(
    blocks: Blocks<'_>,
    vectors: &'a [f64; 225],
    order: &'a [usize; 15],
    inverse: &[f64],
    output: &mut [f64],
)
    requires by_index { (j : ℕ) → j < order_room → get_or order.now j 0 < wide (asked_in blocks.chunk.asked) }
    requires rows_in_bounds { (blocks.chunk.asked.rows ≤ length inverse.now) × (blocks.chunk.asked.rows * blocks.chunk.asked.dims ≤ length output.old) }
    ensures { let b = blocks.entry in (v0 : List Float) (edge_columns : List ℕ) (edge_weights partials : List Float) →
        lent_in inverse.now v0 edge_columns edge_weights b.block0.now b.block1.now b.block2.now partials output.new
        ≡ rotate_work ieee64 (asked_in b.chunk.asked) (progress_in b.chunk.progress) vectors.now order.now b.chunk.number
        (lent_in inverse.now v0 edge_columns edge_weights b.block0.now b.block1.now b.block2.now partials output.old) }
{
    let chunk = blocks.chunk;
    let asked = chunk.asked;
    let own = Rows {
        width: asked.dims,
        ..chunk.rows()
    };
    let ritz = Ritz {
        k: asked.width(),
        vectors,
        order,
    };
    let v = blocks.pick(chunk.progress.current);
    columns::output::rotate_chunk(own, ritz, v, inverse, output);
}
