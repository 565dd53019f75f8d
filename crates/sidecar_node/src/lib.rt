// The state of a sidecar behind gates: its parts, their books of timers and the book of the calls that were forwarded
// here; and how a turn begins and ends.
//
// Promise: what a call did is a list of entries, which are events with their replies, and each seat's own entries grew
// by those of its gate and by no others (`specs/Nodes`). A turn begins and ends on the part of its actor alone. No call
// lends a gate or a seat. Depends on `step_gate`, `part_model`, `part_core`, `timer_book`, `call_book`, `place_table`,
// `actor_names` and `actor_ports`.
#![tactic(auto)]

mod calls;
mod desk;
mod making;
mod node;
mod rounds;
mod rows;
mod seating;
mod stopping;
mod turns;

pub use desk::Desk;
pub use node::{Seats, SidecarNode};
pub use rounds::RoundEvent;
pub use stopping::stop_turn;
pub use turns::{begin_turn, end_turn};
