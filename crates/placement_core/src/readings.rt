// Rooms that are read from records, each found by binary search.
ghost use Rattle.std.specs.Prelude.{◌≡◌, length, map, IfOk};
ghost use Rattle.std.specs.List.{AllByRecursion};
ghost use Rattle.placement_core.specs.Sound.{IsKeptSound};
ghost use Rattle.std.specs.List.Sorted.{IsSearchInRange};
ghost use Rattle.member_roster.specs.Places.{Ascends, place_by};
ghost use Rattle.placement_core.specs.Entries.{has_entry};
ghost use Rattle.placement_core.specs.Readings.{entry_of, kept_of, read_space};

use crate::entry::SpaceRecord;
use crate::sweep::KeptRoom;
use actor_names::{OutOfMemory, Space};
use round_core::{Room, RoomReplay};
use std::alloc::Global;

/// A space and its room, which isn't restarted yet.
#[derive(Drop)]
pub(crate) struct ReadRoom {
    pub(crate) space: Space,
    pub(crate) room: RoomReplay,
}

/// The index of this space's room, or the index at which it would be inserted.
pub(crate) fn read_place(rooms: &[ReadRoom], space: &Space) -> Result<usize, usize>
    requires { Ascends read_space rooms.now }
    ensures place { result ≡ place_by read_space space.now rooms.now }
    ensures within { IsSearchInRange result (length rooms.now) }
{
    rooms.binary_search_by(|read_room| read_room.space.cmp(space))
}

/// Whether an entry names the space.
pub(crate) fn is_named(entries: &[SpaceRecord], space: &Space) -> bool
    ensures { result ≡ has_entry (map entry_of entries.now) space.now }
{
    for entry in entries.iter() {
        if *space == entry.space {
            return true;
        }
    }
    false
}

/// Restarts each room.
pub(crate) fn restart_read(
    alloc: Global,
    rooms: Vec<ReadRoom>,
    now: u64,
) -> Result<Vec<KeptRoom>, OutOfMemory>
    ensures rooms { IfOk result (λ v. v.items ≡ map (kept_of now) rooms.items) }
    ensures sound { IfOk result (λ v. AllByRecursion IsKeptSound v.items) }
{
    let mut items = Vec::with_capacity(alloc, rooms.len())?;
    for read_room in rooms {
        let ReadRoom { space, room } = read_room;
        let room = Room::from_replay(room, now);
        items.push(KeptRoom { space, room })?;
    }
    Ok(items)
}
