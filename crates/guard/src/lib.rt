// Refusals 12 to 16: whether a call of a held run is taken, given its state, its graph and its lent memory; and progress for people.
// Each public function equals its definition on every input.
#![tactic(auto)]

mod progress; // calls accepted and owed
mod ranges; // the state's own ranges
mod rows; // the lists that a call gets
mod tests; // a chunk call's tests and closing's

pub use progress::{calls_accepted, calls_owed};
pub use ranges::{is_open, state_sound};
pub use tests::{test_chunk, test_close};
