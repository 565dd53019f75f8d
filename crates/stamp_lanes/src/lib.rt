// Which stamped commands were accepted: the boots that were drawn for nodes, and for each part of a member the lane of
// its accepted commands.
//
// Promise: a stamp is accepted at most once, however often it is looked up (`lane_law`). The nodes are a list in order
// of space and node, each once, and each call changes it as `specs/Stamps` says; rows that are read back give the same
// list (`restored_law`). After `reserve` an `accept` can't fail. It depends on `search_tree`, `actor_names`,
// `lists_and_limits` and `schedule_text`.
#![tactic(auto)]

mod answer;
mod error;
mod kept;
mod lane;
mod lanes;
mod law;
mod node;
mod nodes;
mod prepared;
mod restored;
mod room;
mod standing;

pub use answer::{KeptNumber, LaneAnswer, StampLook};
pub use error::{BootError, RestoreError, StampError};
pub use kept::{KeptNumbers, MOST_KEPT};
pub use lane::Lane;
pub use lanes::StampLanes;
pub use law::{lane_law, nodes_law, restored_law};
pub use node::{MOST_NODES, NodeLanes};
pub use prepared::PreparedBoot;
