// The start block, which is the first, and the passes, which write the block that they don't read.
ghost use Rattle.std.specs.Prelude.{◌≡◌, List, ℕ, ◌*◌, ◌≤◌, ◌<◌, Float, length};
ghost use Rattle.definition.specs.Arith.{ieee64};
ghost use Rattle.definition.specs.ChebyshevRayleighRitz.{start_block};
ghost use Rattle.held.specs.Places.{fill_where};
ghost use Rattle.machine.specs.State.{wide};
ghost use Rattle.machine.specs.Work.{own_place, on_block, pass_work};
ghost use Rattle.numbers.specs.Answers.{multipliers_of};
ghost use Rattle.rows.specs.Pass.{combined_at, operator_of};
ghost use Rattle.state.specs.Said.{asked_in, lent_in, lists_in};
ghost use Rattle.blocks.specs.Chosen.{chosen, BlocksReady, EdgesReady};

use crate::choice::Blocks;
use crate::chunk::Chunk;
use numbers::Multipliers;
use rows::Operator;

// What a pass reads beside the blocks: the row starts, the entries of the chunk's rows, and the inverse weights.
#[derive(Clone, Copy)]
pub struct Edges<'a> {
    pub chunk: Chunk,
    pub op: Operator<'a>,
    ghost ready: { EdgesReady (asked_in chunk.asked) chunk.number op.starts.now op.columns.now op.weights.now op.inverse.now },
}

pub fn start_stage(chunk: Chunk, block0: &mut [f64])
    requires asked_in_bounds { chunk.asked.rows * wide (asked_in chunk.asked) ≤ length block0.old }
    ensures { (inverse v0 : List Float) (edge_columns : List ℕ) (edge_weights block1 block2 partials output : List Float) →
        lent_in inverse v0 edge_columns edge_weights block0.new block1 block2 partials output
        ≡ on_block ieee64 (asked_in chunk.asked) 0 (start_block ieee64 (wide (asked_in chunk.asked))) chunk.number
        (lent_in inverse v0 edge_columns edge_weights block0.old block1 block2 partials output) }
{
    rows::start_block_chunk(chunk.rows(), block0);
}

// A pass over the current block and the one of number `previous`, into the chunk's rows of `out`.
fn pass_block(
    edges: Edges<'_>,
    blocks: Blocks<'_>,
    by: Multipliers,
    previous: usize,
    out: &mut [f64],
)
    requires chunk_same { blocks.chunk ≡ edges.chunk }
    requires asked_in_bounds { edges.chunk.asked.rows * wide (asked_in edges.chunk.asked) ≤ length out.old }
    ensures { let e = edges.entry in let b = blocks.entry in let n = e.chunk.asked.rows in let k = wide (asked_in e.chunk.asked) in
        out.new ≡ fill_where (own_place n k e.chunk.number)
        (combined_at ieee64 n k
        (operator_of ieee64 e.op.starts.now e.op.columns.now e.op.weights.now e.op.inverse.now) (multipliers_of by)
        (chosen e.chunk.progress.current b.block0.now b.block1.now b.block2.now)
        (chosen previous b.block0.now b.block1.now b.block2.now)) out.old }
{
    let chunk = edges.chunk;
    rows::matvec_combine(
        chunk.rows(),
        by,
        edges.op,
        blocks.pick(chunk.progress.current),
        blocks.pick(previous),
        out,
    );
}

// A pass over the current block and the one of number `previous`. The block that is written is neither, so another stands in its
// place among those that are read.
pub fn pass_stage(
    edges: Edges<'_>,
    by: Multipliers,
    previous: usize,
    block0: &mut [f64],
    block1: &mut [f64],
    block2: &mut [f64],
)
    requires previous_bound { previous < 3 }
    requires blocks_ready { BlocksReady (asked_in edges.chunk.asked) block0.old block1.old block2.old }
    ensures { let e = edges.entry in (columns : List ℕ) (values v0 partials output : List Float) →
        lent_in e.op.inverse.now v0 e.op.columns.now e.op.weights.now block0.new block1.new block2.new partials output
        ≡ pass_work ieee64 (asked_in e.chunk.asked) (multipliers_of by) e.chunk.progress.current previous (lists_in e.op.starts.now columns values) e.chunk.number
        (lent_in e.op.inverse.now v0 e.op.columns.now e.op.weights.now block0.old block1.old block2.old partials output) }
{
    let chunk = edges.chunk;
    match state::free_block(chunk.progress.current, previous) {
        0 => {
            let blocks = Blocks {
                chunk,
                block0: &block1[..],
                block1: &block1[..],
                block2: &block2[..],
            };
            pass_block(edges, blocks, by, previous, block0)
        }
        1 => {
            let blocks = Blocks {
                chunk,
                block0: &block0[..],
                block1: &block2[..],
                block2: &block2[..],
            };
            pass_block(edges, blocks, by, previous, block1)
        }
        _ => {
            let blocks = Blocks {
                chunk,
                block0: &block0[..],
                block1: &block1[..],
                block2: &block1[..],
            };
            pass_block(edges, blocks, by, previous, block2)
        }
    }
}
