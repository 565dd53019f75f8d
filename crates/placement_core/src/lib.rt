// The placement: a room for each space, with members and rounds of its own.
//
// Promise: each call of a `Placement` follows the state machine of `specs/Placement`, lends what has to be on the disk
// (`specs/Entries`) and is restored from it (`specs/Restores`). Depends on `round_core`, which has one room, and on
// `member_roster`, `place_table` and `actor_names`.
#![tactic(auto)]

mod entry;
mod law;
mod placement;
mod readings;
mod replay;
mod rooms;
mod sweep;

pub use entry::{PlacementRecord, RoomEntry, SpaceRecord};
pub use law::{
    durable_law, own_space_law, placement_refused_law, replayed_law, rooms_settled_law,
    rooms_sound_law, tables_law,
};
pub use placement::Placement;
pub use replay::PlacementReplay;
pub use round_core::{AckStage, PlaceEvent, PlaceReply, RestoreError, RoomRecord};
