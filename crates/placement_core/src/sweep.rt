// A room with its space, and what is done in all rooms, one after the other.
ghost use Rattle.std.specs.Prelude.{◌≡◌, ◌≤◌, IfOk, length, map, option_map};
ghost use Rattle.std.specs.List.{slice_get};
ghost use Rattle.member_roster.specs.Members.{late_of};
ghost use Rattle.placement_core.specs.Kept.{kept, kept_entries, kept_ticked, kept_restarted};
ghost use Rattle.placement_core.specs.Placement.{late_in};
ghost use Rattle.placement_core.specs.Views.{lent_entry};

use crate::entry::RoomEntry;
use actor_names::{OutOfMemory, Space};
use round_core::{PlaceEvent, PlaceReply, Room};
use std::alloc::Global;

/// A space and its room.
#[derive(Drop)]
pub(crate) struct KeptRoom {
    pub(crate) space: Space,
    pub(crate) room: Room,
}

/// Time has passed in a room; counts the members that were dropped.
fn tick_room(kept_room: &mut KeptRoom, now: u64) -> u32
    ensures room { kept_room.new ≡ kept_ticked now kept_room.old }
    ensures count { result ≡ length (late_of kept_room.old.room.state.members now) }
    ensures within { result ≤ 256 }
{
    let _most = kept_room.room.len();
    match kept_room.room.step(PlaceEvent::Tick, now) {
        PlaceReply::Ticked { dropped } => dropped,
        _ => unreachable!(),
    }
}

/// Time has passed in all rooms; counts the members that were dropped.
pub(crate) fn tick_rooms(rooms: &mut Vec<KeptRoom>, now: u64) -> u32
    requires { length rooms.old.items ≤ 64 }
    ensures rooms { rooms.new.items ≡ map (kept_ticked now) rooms.old.items }
    ensures count { result ≡ length (late_in (map kept rooms.old.items) now) }
{
    let mut dropped = 0;
    for kept_room in rooms.iter_mut() {
        dropped += tick_room(kept_room, now);
    }
    dropped
}

/// Restarts each room.
pub(crate) fn restart_rooms(rooms: &mut Vec<KeptRoom>, now: u64)
    ensures { rooms.new.items ≡ map (kept_restarted now) rooms.old.items }
{
    for kept_room in rooms.iter_mut() {
        kept_room.room.restarted(now);
    }
}

/// The entry at this index, counted from 0, of what these rooms have to record.
pub(crate) fn entry_in(rooms: &[KeptRoom], at: usize) -> Option<RoomEntry<'_>>
    ensures { option_map lent_entry result ≡ slice_get (kept_entries rooms.now) at }
{
    let mut left = at;
    for kept_room in rooms.iter() {
        if let Some(change) = kept_room.room.record() {
            if left == 0 {
                return Some(RoomEntry {
                    space: kept_room.space,
                    change,
                });
            }
            left -= 1;
        }
    }
    None
}

/// Equal rooms.
pub(crate) fn copy_rooms(alloc: Global, rooms: &[KeptRoom]) -> Result<Vec<KeptRoom>, OutOfMemory>
    ensures { IfOk result (λ v. v.items ≡ rooms.now) }
{
    let mut items = Vec::with_capacity(alloc, rooms.len())?;
    for kept_room in rooms.iter() {
        let room = kept_room.room.copy(alloc)?;
        let space = kept_room.space;
        items.push(KeptRoom { space, room })?;
    }
    Ok(items)
}
