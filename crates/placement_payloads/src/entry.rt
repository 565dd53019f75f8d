// The change of a room, with the space of the room.
use actor_names::Space;
use round_core::RoomRecord;

/// What changed in the room of a space.
#[derive(Drop)]
pub struct RoomEntry {
    /// The space.
    pub space: Space,
    /// What changed in its room.
    pub change: RoomRecord,
}
