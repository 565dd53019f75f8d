// The placement with its journal: each step is on the disk before it is answered.
//
// Promise: a step of a `PlacementNode` answers what the placement's step answers, and its record is written first
// (`specs/Node`); an opening restarts the placement from the records of its journal (`specs/Openings`). It depends on
// `placement_core`, `placement_payloads`, `tx_journal`, `frame_wire`, `state_machine`, and `step_gate` for histories.
#![tactic(auto)]

mod answer;
mod error;
mod found;
mod law;
mod machine;
mod node;
mod reply;
mod round;
mod trial;
mod written;

pub use error::PlacementOpenError;
pub use law::node_law;
pub use node::PlacementNode;
pub use reply::{Awaited, AwaitedMembers, NodeEvent, NodeReply, RoomSeen, RoundSeen, SeenRooms};
