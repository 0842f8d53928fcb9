// The stages that write a column of the current block.
// Where a stage writes one of the three blocks they stay three parameters, here and in pass.rt: a struct of them would hold `&mut`s, and
// each contract would want a clause more for each: that the list is the same place after the call (`state`'s `SamePlaces`).
ghost use Rattle.std.specs.Prelude.{◌≡◌, List, ℕ, ◌*◌, ◌≤◌, Float, length};
ghost use Rattle.definition.specs.Arith.{ieee64};
ghost use Rattle.definition.specs.Memory.{vector_of, block_of, number_at};
ghost use Rattle.definition.specs.OrthonormalizeBlock.{subtracted, written};
ghost use Rattle.held.specs.Places.{fill_where};
ghost use Rattle.machine.specs.State.{wide};
ghost use Rattle.machine.specs.Work.{own_place, ending_in, subtract_work, write_work};
ghost use Rattle.state.specs.Said.{asked_in, progress_in, lent_in};
ghost use Rattle.blocks.specs.Chosen.{BlocksReady};

use crate::chunk::Chunk;
use numbers::Ending;

// The column at hand less its delta, in the chunk's rows of the block.
fn subtract_block(chunk: Chunk, dots: &[f64; 225], v0: &[f64], block: &mut [f64])
    requires rows_in_bounds { (chunk.asked.rows ≤ length v0.now) × (chunk.asked.rows * wide (asked_in chunk.asked) ≤ length block.old) }
    ensures { let n = chunk.asked.rows in let k = wide (asked_in chunk.asked) in
        block.new ≡ fill_where (own_place n k chunk.number)
        (number_at n k (subtracted ieee64 (vector_of ieee64.none dots.now) (vector_of ieee64.none v0.now)
        (block_of ieee64.none n k block.old) chunk.progress.column)) block.old }
{
    columns::subtract_chunk(chunk.rows(), chunk.progress.column, dots, v0, block);
}

// The column at hand less its delta, by the dots that the totals hold.
pub fn subtract_stage(
    chunk: Chunk,
    totals: &[f64; 225],
    v0: &[f64],
    block0: &mut [f64],
    block1: &mut [f64],
    block2: &mut [f64],
)
    requires rows_in_bounds { chunk.asked.rows ≤ length v0.now }
    requires blocks_ready { BlocksReady (asked_in chunk.asked) block0.old block1.old block2.old }
    ensures { (inverse : List Float) (edge_columns : List ℕ) (edge_weights partials output : List Float) →
        lent_in inverse v0.now edge_columns edge_weights block0.new block1.new block2.new partials output
        ≡ subtract_work ieee64 (asked_in chunk.asked) (progress_in chunk.progress) totals.now chunk.number
        (lent_in inverse v0.now edge_columns edge_weights block0.old block1.old block2.old partials output) }
{
    match chunk.progress.current {
        0 => subtract_block(chunk, totals, v0, block0),
        1 => subtract_block(chunk, totals, v0, block1),
        _ => subtract_block(chunk, totals, v0, block2),
    }
}

// The column at hand as its attempt ends, in the chunk's rows of the block.
fn write_block(chunk: Chunk, block: &mut [f64])
    requires asked_in_bounds { chunk.asked.rows * wide (asked_in chunk.asked) ≤ length block.old }
    ensures { let n = chunk.asked.rows in let k = wide (asked_in chunk.asked) in let t = progress_in chunk.progress in
        block.new ≡ fill_where (own_place n k chunk.number)
        (number_at n k (written ieee64 n k t.round t.column (ending_in ieee64 t) (block_of ieee64.none n k block.old))) block.old }
{
    let own = chunk.rows();
    let progress = chunk.progress;
    let c = progress.column;
    let ending = numbers::collapse_test(progress.before, progress.norm, progress.attempt == 1);
    match ending {
        Ending::Kept(norm) => columns::divide_chunk(own, c, norm, block),
        Ending::Refreshed => columns::refresh_chunk(own, c, progress.round, block),
        Ending::Zeroed => columns::zero_chunk(own, c, block),
    }
}

// The column at hand divided by its norm, refreshed or zeroed.
pub fn write_stage(chunk: Chunk, block0: &mut [f64], block1: &mut [f64], block2: &mut [f64])
    requires blocks_ready { BlocksReady (asked_in chunk.asked) block0.old block1.old block2.old }
    ensures { (inverse v0 : List Float) (edge_columns : List ℕ) (edge_weights partials output : List Float) →
        lent_in inverse v0 edge_columns edge_weights block0.new block1.new block2.new partials output
        ≡ write_work ieee64 (asked_in chunk.asked) (progress_in chunk.progress) chunk.number
        (lent_in inverse v0 edge_columns edge_weights block0.old block1.old block2.old partials output) }
{
    match chunk.progress.current {
        0 => write_block(chunk, block0),
        1 => write_block(chunk, block1),
        _ => write_block(chunk, block2),
    }
}
