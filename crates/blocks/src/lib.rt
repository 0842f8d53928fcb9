// The chunk work of the stages that read or write one of the three blocks which the state names.
// Each stage's contract speaks of all lent memory: whatever the lists are that it isn't lent, all of
// them are then the machine's work of what they were.
#![tactic(auto)]

mod choice; // choice.rt: the three blocks, and the one of a number
mod chunk; // chunk.rt: a chunk's rows, and the place of its partial
mod partials; // partials.rt: the stages that write partials
mod column; // column.rt: the stages that write a column of the current block
mod pass; // pass.rt: the start block and the passes
mod rotate; // rotate.rt: the stage that turns the current block into output

pub use choice::Blocks;
pub use chunk::Chunk;
pub use column::{subtract_stage, write_stage};
pub use partials::{dots_stage, norm_stage, products_stage};
pub use pass::{Edges, pass_stage, start_stage};
pub use rotate::rotate_stage;
