// Placement tables: which host of a cluster owns an actor, by a consistent hash ring.
//
// Promise: the owner is the host of the least point at or after the place of the actor's id, or else of the
// least point of all; an added host takes actors only to itself. Depends on `actor_names` and `sha2`.
#![tactic(auto)]

mod ack_stage;
mod build;
mod error;
mod faults;
mod hash;
mod host;
mod moved;
mod point;
mod ring;
mod slots;
mod sort;
mod steps;
mod table;

pub use ack_stage::AckStage;
pub use error::TableError;
pub use faults::{MOST_HOSTS, MOST_TYPES};
pub use hash::{key_hash, part_of};
pub use host::{ActorTypes, HostInfo};
pub use moved::moved_law;
pub use point::Point;
pub use ring::ring_pick;
pub use steps::Steps;
pub use table::{Table, build_table};
