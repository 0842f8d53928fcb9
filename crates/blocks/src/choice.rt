// The three blocks where they are only read, and which of them a number names.
ghost use Rattle.std.specs.Prelude.{◌≡◌};
ghost use Rattle.state.specs.Said.{asked_in};
ghost use Rattle.blocks.specs.Chosen.{chosen, BlocksReady};

use crate::chunk::Chunk;

// What a chunk reads of the blocks. One lifetime for the three, since any of them may be picked.
#[derive(Clone, Copy)]
pub struct Blocks<'a> {
    pub chunk: Chunk,
    pub block0: &'a [f64],
    pub block1: &'a [f64],
    pub block2: &'a [f64],
    ghost ready: { BlocksReady (asked_in chunk.asked) block0.now block1.now block2.now },
}

impl<'a> Blocks<'a> {
    // The block of that number.
    pub fn pick(self, number: usize) -> &'a [f64]
        ensures { result.now ≡ chosen number self.entry.block0.now self.entry.block1.now self.entry.block2.now }
    {
        match number {
            0 => self.block0,
            1 => self.block1,
            _ => self.block2,
        }
    }
}
