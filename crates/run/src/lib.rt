// The held run: opening, chunks in any order, closing stage after stage. A host may store the state and the lent memory between any two
// calls and go on from them. Every call ends; bad input is refused by document 01's number and place, and a refused call changes no lent
// number. What the calls come to together is proved in crate `promises`.
//
// The three calls answer a record and no `Result`: it is what C gets of `threshcinch_open`, `_chunk` and `_close`, with a state beside a refusal too.
//
// Argument order: what is asked, the graph (starts, columns, values), the lent memory in document 01's order 0 to 10.
#![tactic(auto)]

mod chunks; // chunks.rt: a chunk's work and its mark
mod lengths; // lengths.rt: what the tests of a call are told of the memory
mod opening; // opening.rt: the first state, and the call that answers it
mod stage_end; // stage_end.rt: closing a stage

pub use chunks::{chunk, work_chunk};
pub use guard::{calls_accepted, calls_owed};
pub use opening::open;
pub use stage_end::{close, close_stage};
