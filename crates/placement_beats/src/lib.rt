// A sidecar's turns with the placement: one frame sent, one frame read, and what the parts are given by it.
//
// Promise: a turn's entries are a Tick on each part and, by the frame read, one event on each part; an acknowledgement
// that is sent is what the receipts of this turn's Ticks justify (`specs/Beats`). Depends on `sidecar_node`,
// `member_core`, `exchanges` and `frame_wire`, and on what these stand on.
#![tactic(auto)]

mod answers;
mod beat;
mod book;
mod heartbeat;
mod law;
mod leave;
mod reply;

pub use beat::placement_turn;
pub use book::{PlacementBook, TurnEnd};
pub use law::beat_law;
pub use leave::leave_turn;
