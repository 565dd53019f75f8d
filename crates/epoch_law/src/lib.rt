// What holds of the epochs with which members write the state of one actor.
//
// Promise: the epoch of a member is the version at which its part of the actor opened last, which a Lock of version 0 tells;
// of two members that have an actor active one after the other, the later one's is greater. An actor that is held stays
// active until its last hold is released, or the part stops. No code runs here. Depends on `cluster_model`, `world_events`,
// `part_model` and the crates below them.
#![tactic(auto)]

mod law;

pub use law::epoch_law;
