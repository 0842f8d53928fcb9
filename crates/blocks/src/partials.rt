// The stages that write a chunk's partial.
ghost use Rattle.std.specs.Prelude.{◌≡◌, List, ℕ, ◌*◌, ◌≤◌, Float, length};
ghost use Rattle.definition.specs.Arith.{ieee64};
ghost use Rattle.machine.specs.State.{wide, chunk_count};
ghost use Rattle.machine.specs.Work.{norm_work, dots_work, products_work};
ghost use Rattle.state.specs.Said.{asked_in, progress_in, lent_in};

use crate::choice::Blocks;

// The norm before and the norm after: the squares of the column at hand.
pub fn norm_stage(blocks: Blocks<'_>, partials: &mut [f64])
    requires { let a = asked_in blocks.chunk.asked in chunk_count a * wide a * wide a ≤ length partials.old }
    ensures { let b = blocks.entry in (inverse v0 : List Float) (edge_columns : List ℕ) (edge_weights output : List Float) →
        lent_in inverse v0 edge_columns edge_weights b.block0.now b.block1.now b.block2.now partials.new output
        ≡ norm_work ieee64 (asked_in b.chunk.asked) (progress_in b.chunk.progress) b.chunk.number
        (lent_in inverse v0 edge_columns edge_weights b.block0.now b.block1.now b.block2.now partials.old output) }
{
    let chunk = blocks.chunk;
    let progress = chunk.progress;
    sums::norm_partial(
        chunk.rows(),
        progress.column,
        blocks.pick(progress.current),
        chunk.partial(),
        partials,
    );
}

// The dots of the column at hand with the columns before it and with v0.
pub fn dots_stage(blocks: Blocks<'_>, v0: &[f64], partials: &mut [f64])
    requires rows_in_bounds { blocks.chunk.asked.rows ≤ length v0.now }
    requires partials_enough { let a = asked_in blocks.chunk.asked in chunk_count a * wide a * wide a ≤ length partials.old }
    ensures { let b = blocks.entry in (inverse : List Float) (edge_columns : List ℕ) (edge_weights output : List Float) →
        lent_in inverse v0.now edge_columns edge_weights b.block0.now b.block1.now b.block2.now partials.new output
        ≡ dots_work ieee64 (asked_in b.chunk.asked) (progress_in b.chunk.progress) b.chunk.number
        (lent_in inverse v0.now edge_columns edge_weights b.block0.now b.block1.now b.block2.now partials.old output) }
{
    let chunk = blocks.chunk;
    let progress = chunk.progress;
    sums::dots_partial(
        chunk.rows(),
        progress.column,
        v0,
        blocks.pick(progress.current),
        chunk.partial(),
        partials,
    );
}

// The products of the current block's columns with those of the block that the plain pass wrote.
pub fn products_stage(blocks: Blocks<'_>, partials: &mut [f64])
    requires { let a = asked_in blocks.chunk.asked in chunk_count a * wide a * wide a ≤ length partials.old }
    ensures { let b = blocks.entry in (inverse v0 : List Float) (edge_columns : List ℕ) (edge_weights output : List Float) →
        lent_in inverse v0 edge_columns edge_weights b.block0.now b.block1.now b.block2.now partials.new output
        ≡ products_work ieee64 (asked_in b.chunk.asked) (progress_in b.chunk.progress) b.chunk.number
        (lent_in inverse v0 edge_columns edge_weights b.block0.now b.block1.now b.block2.now partials.old output) }
{
    let chunk = blocks.chunk;
    let current = chunk.progress.current;
    let v = blocks.pick(current);
    let w = blocks.pick(state::free_block(current, current));
    sums::products_partial(chunk.rows(), v, w, chunk.partial(), partials);
}
