// The row work of the stages that write whole rows. Each stage has a function on the rows of one
// chunk, which are a part that begins at the chunk's first row, and one on the whole lent list,
// which lends that part on.
#![tactic(auto)]

pub mod degrees; // degrees.rt: roots, inverse weights and v0
pub mod start; // start.rt: the start block
pub mod pass; // pass.rt: one pass of the operator

pub use degrees::{degrees_chunk, v0_chunk};
pub use pass::{Operator, matvec_combine};
pub use start::start_block_chunk;
