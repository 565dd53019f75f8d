// The cluster as one list of events: a placement, the parts of all members, and every message ever added.
//
// Promise: after every list of events the cluster invariant holds (`specs/Cluster`), and each Lock, Update or Unlock message
// of a version went to one of the targets with which the round of that version began (`specs/Targets`). No code runs here.
// Depends on `placement_core`, `world_events`, `round_core`, `part_model` and the crates below them.
#![tactic(auto)]

mod law;
mod target;

pub use law::cluster_law;
pub use target::targets_law;
