// The entries of records: what has to be on the disk of the rooms that changed.
use actor_names::Space;
use round_core::RoomRecord;

/// The entry of a room that has something to record, lent by the placement.
#[derive(Clone, Copy)]
pub struct RoomEntry<'a> {
    /// The space of the room.
    pub space: Space,
    /// What the room has to record: who joined, who was removed, and its next version.
    pub change: &'a RoomRecord,
}

/// An entry that was read: a space, and the record of its room.
#[derive(Drop)]
pub struct SpaceRecord {
    /// The space of the room.
    pub space: Space,
    /// What the room had to record.
    pub change: RoomRecord,
}

/// A record that was read: the entries of the rooms that one step or restart changed.
#[derive(Drop)]
pub struct PlacementRecord {
    /// At most one for each space.
    pub entries: Vec<SpaceRecord>,
}
