// Rooms in byte order of space, each found by binary search, and which of them the last step changed.
ghost use Rattle.std.specs.Prelude.{◌≡◌, ◌<◌, ◌≤◌, [], None, Some, IfOk, OnOk, OnErr, length, map, option_map};
ghost use Rattle.std.specs.List.{AllByRecursion, slice_get};
ghost use Rattle.std.specs.Option.{option_copied};
ghost use Rattle.std.specs.List.Sorted.{IsSearchInRange};
ghost use Rattle.member_roster.specs.Places.{place_by, Ascends};
ghost use Rattle.placement_core.specs.Entries.{each_record, noted, restarted_record, tick_record};
ghost use Rattle.placement_core.specs.Kept.{kept, kept_entries, kept_space, room_state};
ghost use Rattle.placement_core.specs.Placement.{SpaceRoom, room_at, put_room, each_room, ticked, restarted, late_in};
ghost use Rattle.placement_core.specs.Runs.{space_of};
ghost use Rattle.placement_core.specs.Sound.{HasSoundRoom, IsKeptSound};
ghost use Rattle.round_core.specs.Sound.{IsRoomSound};
ghost use Rattle.placement_core.specs.Views.{LeavesEntry, Steps, lent_entry};

use crate::entry::RoomEntry;
use crate::sweep::{KeptRoom, copy_rooms, entry_in, restart_rooms, tick_rooms};
use actor_names::{OutOfMemory, Space};
use round_core::{PlaceEvent, PlaceReply, Room};
use std::alloc::Global;
use std::marker::Model;

/// At most 64 rooms, in byte order of space. The last step acted in those from the index `from` up to `upto`.
#[derive(Drop)]
pub(crate) struct Rooms {
    rooms: Vec<KeptRoom>,
    from: usize,
    upto: usize,
}

impl Model for Rooms {
    ghost use Rattle.std.specs.Prelude.{length, map, ◌≤◌};
    ghost use Rattle.member_roster.specs.Places.{Ascends};
    ghost use Rattle.std.specs.List.{AllByRecursion};
    ghost use Rattle.placement_core.specs.Kept.{KeptRooms, entries_between, kept, kept_space};
    ghost use Rattle.placement_core.specs.Sound.{IsKeptSound};

    ghost Value = { KeptRooms };

    ghost view = { λ a. record { rooms = map kept a.rooms.items; recent = entries_between a.from a.upto a.rooms.items } };

    ghost invariant = { λ a. Ascends kept_space a.rooms.items × (length a.rooms.items ≤ 64) × (a.from ≤ a.upto) × (a.upto ≤ length a.rooms.items) × AllByRecursion IsKeptSound a.rooms.items };
}

/// The index of this space's room, or the index at which it would be inserted.
fn room_place(rooms: &[KeptRoom], space: &Space) -> Result<usize, usize>
    requires { Ascends kept_space rooms.now }
    ensures place { result ≡ place_by kept_space space.now rooms.now }
    ensures within { IsSearchInRange result (length rooms.now) }
{
    rooms.binary_search_by(|kept_room| kept_room.space.cmp(space))
}

impl Rooms {
    /// No rooms.
    pub(crate) fn new(alloc: Global) -> Rooms
        ensures { result ≡ record { rooms = []; recent = [] } }
    {
        Rooms {
            rooms: Vec::new(alloc),
            from: 0,
            upto: 0,
        }
    }

    /// Rooms that were all restarted.
    pub(crate) fn from_restarted(rooms: Vec<KeptRoom>) -> Rooms
        requires order { Ascends kept_space rooms.items }
        requires few { length rooms.items ≤ 64 }
        requires sound { AllByRecursion IsKeptSound rooms.items }
        ensures rooms { result.rooms ≡ map kept rooms.items }
        ensures recent { result.recent ≡ kept_entries rooms.items }
    {
        let upto = rooms.len();
        Rooms {
            rooms,
            from: 0,
            upto,
        }
    }

    /// How many rooms there are.
    pub(crate) fn len(&self) -> u32
        ensures count { result ≡ length self.now.rooms }
        ensures within { result ≤ 64 }
        ensures order { Ascends space_of self.now.rooms }
        ensures sound { AllByRecursion HasSoundRoom self.now.rooms }
    {
        self.rooms.len() as u32
    }

    /// The room of this space, if there is one.
    pub(crate) fn room(&self, space: &Space) -> Option<&Room>
        ensures { option_map room_state (option_copied result) ≡ room_at self.now.rooms space.now }
    {
        match room_place(&self.rooms, space) {
            Ok(at) => Some(&self.rooms[at].room),
            Err(_) => None,
        }
    }

    /// The space at this index.
    pub(crate) fn space_at(&self, at: usize) -> Space
        requires { at < length self.now.rooms }
        ensures { (r : SpaceRoom) → slice_get self.now.rooms at ≡ Some r → result ≡ r.space }
    {
        self.rooms[at].space
    }

    /// The room at this index.
    pub(crate) fn room_at(&self, at: usize) -> &Room
        requires { at < length self.now.rooms }
        ensures { (r : SpaceRoom) → slice_get self.now.rooms at ≡ Some r → result.now.state ≡ r.room }
    {
        &self.rooms[at].room
    }

    /// The entry at this index, counted from 0, of what the last step has to record.
    pub(crate) fn entry(&self, at: usize) -> Option<RoomEntry<'_>>
        ensures { option_map lent_entry result ≡ slice_get self.now.recent at }
    {
        entry_in(&self.rooms[self.from..self.upto], at)
    }

    /// Nothing is to be recorded.
    pub(crate) fn forget(&mut self)
        ensures { self.new ≡ record { rooms = self.old.rooms; recent = [] } }
    {
        self.from = 0;
        self.upto = 0;
    }

    /// One step in the room of this space; None if there is none.
    pub(crate) fn step(&mut self, space: &Space, event: PlaceEvent, now: u64) -> Option<PlaceReply>
        ensures steps { Steps event now space.now result self.old.rooms self.new.rooms }
        ensures recent { LeavesEntry event now space.now result self.old.rooms self.new.recent }
    {
        match room_place(&self.rooms, space) {
            Ok(at) => {
                let kept_room = &mut self.rooms[at];
                let reply = kept_room.room.step(event, now);
                self.from = at;
                self.upto = at + 1;
                Some(reply)
            }
            Err(_) => {
                self.from = 0;
                self.upto = 0;
                None
            }
        }
    }

    /// Inserts the room of a space that has none, at its place in the order. What it has to record is what all have to.
    pub(crate) fn insert(&mut self, space: Space, room: Room) -> Result<(), OutOfMemory>
        requires free { room_at self.old.rooms space ≡ None }
        requires few { length self.old.rooms < 64 }
        requires sound { IsRoomSound room.state }
        ensures ok { OnOk result (self.new.rooms ≡ put_room self.old.rooms space room.state) }
        ensures recent { OnOk result (self.new.recent ≡ noted space room.recent) }
        ensures err { OnErr result (self.new ≡ self.old) }
    {
        match room_place(&self.rooms, &space) {
            Ok(_) => unreachable!(),
            Err(at) => {
                self.rooms.insert(at, KeptRoom { space, room })?;
                self.from = at;
                self.upto = at + 1;
                Ok(())
            }
        }
    }

    /// Time has passed in all rooms; counts the members that were dropped.
    pub(crate) fn tick(&mut self, now: u64) -> u32
        ensures rooms { self.new.rooms ≡ map (each_room (ticked now)) self.old.rooms }
        ensures recent { self.new.recent ≡ each_record (tick_record now) self.old.rooms }
        ensures count { result ≡ length (late_in self.old.rooms now) }
    {
        let dropped = tick_rooms(&mut self.rooms, now);
        self.from = 0;
        self.upto = self.rooms.len();
        dropped
    }

    /// Restarts each room.
    pub(crate) fn restart(&mut self, now: u64)
        ensures rooms { self.new.rooms ≡ map (each_room (restarted now)) self.old.rooms }
        ensures recent { self.new.recent ≡ each_record (restarted_record now) self.old.rooms }
    {
        restart_rooms(&mut self.rooms, now);
        self.from = 0;
        self.upto = self.rooms.len();
    }

    /// Equal rooms.
    pub(crate) fn copy(&self, alloc: Global) -> Result<Rooms, OutOfMemory>
        ensures { IfOk result (λ copy. copy ≡ self.now) }
    {
        let rooms = copy_rooms(alloc, self.rooms.as_slice())?;
        Ok(Rooms {
            rooms,
            from: self.from,
            upto: self.upto,
        })
    }
}
