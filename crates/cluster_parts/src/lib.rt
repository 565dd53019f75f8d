// The parts of all members of a cluster, the calls that a script made of them, and what their replies come to.
//
// Promise: a step of the part at a place is the model's (`part_model`), and the others stay; a member, a part and a call
// are found as the cluster model (`cluster_model`) finds them; a reply comes to the outcome that the cluster model defines.
// Depends on `cluster_model`, `part_model`, `part_core`, `world_events` and the crates below them.
#![tactic(auto)]

mod calls;
mod home;
mod known_ids;
mod making;
mod outcomes;
mod parts;
mod tally;

pub use calls::{CallAt, Calls};
pub use known_ids::KnownIds;
pub use outcomes::{
    call_outcome, closing_outcome, dropped_outcome, ended_turns, hold_outcome, lost_outcome,
    nothing, stop_outcome, told_outcome,
};
pub use parts::Parts;
