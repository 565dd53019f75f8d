// One part of a sidecar: the actors whose keys fall into it, its stage in a placement round and its table.
//
// Promise: each step of a `Part` follows the part's state machine (`specs/Part` of `part_model`). As a machine
// (`specs/Machine` there) it can be put behind a gate. Depends on `part_model`, `part_cells`, `state_machine`,
// `place_table`, `turn_core`, `actor_names` and `lists_and_limits`.
#![tactic(auto)]

mod actors;
mod asking;
mod calling;
mod chains;
mod closing;
mod holding;
mod machine;
mod opening;
mod owners;
mod part;
mod receipt;
mod resting;
mod settings;
mod shard;
mod stage;
mod standing;
mod stopping;
mod ticking;

pub use part::Part;
pub use receipt::{PartReply, Receipt};
