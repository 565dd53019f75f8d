// A placement that is read from the records of a run, one after the other.
ghost use Rattle.std.specs.Prelude.{◌≡◌, Some, None, map, IfOk, IfErr, OnOk, List, if◌then◌else◌};
ghost use Rattle.std.specs.declared.result.Result.TheVariants.{Ok};
ghost use Rattle.round_core.specs.Runs.{RunEvent};
ghost use Rattle.round_core.specs.declared.restore.RestoreError.TheVariants.{OutOfMemory as out_of_memory};
ghost use Rattle.placement_core.specs.Entries.{placement_restart_record};
ghost use Rattle.placement_core.specs.Placement.{new_placement, placement_restarted};
ghost use Rattle.placement_core.specs.Readings.{entries_of, entry_of, IsBadAt, IsBadIn};
ghost use Rattle.placement_core.specs.Restores.{after_entries, after_entry, placement_restored, restored_record, rooms_after};
ghost use Rattle.placement_core.specs.Runs.{run_records, run_state};
ghost use Rattle.placement_core.specs.Sound.{IsPlacementSound};

use crate::entry::{PlacementRecord, SpaceRecord};
use crate::placement::Placement;
use crate::readings::{ReadRoom, is_named, read_place, restart_read};
use actor_names::{OutOfMemory, default_space};
use round_core::{RestoreError, RoomReplay};
use std::alloc::Global;
use std::marker::Model;

/// The rooms that are read from the records of a run, before their restart.
#[derive(Drop)]
pub struct PlacementReplay {
    alloc: Global,
    rooms: Vec<ReadRoom>,
}

impl Model for PlacementReplay {
    ghost use Rattle.std.specs.Prelude.{List, length, map, ◌<◌, ◌≤◌};
    ghost use Rattle.member_roster.specs.Places.{Ascends};
    ghost use Rattle.placement_core.specs.Placement.{SpaceRoom};
    ghost use Rattle.placement_core.specs.Readings.{read_space, room_read};

    ghost Value = { List SpaceRoom };

    ghost view = { λ a. map room_read a.rooms.items };

    ghost invariant = { λ a. Ascends read_space a.rooms.items × (length a.rooms.items ≤ 64) × (0 < length a.rooms.items) };
}

impl PlacementReplay {
    /// The rooms before the first record: those of the opening placement.
    pub fn new(alloc: Global) -> Result<PlacementReplay, OutOfMemory>
        ensures { IfOk result (λ replay. replay ≡ new_placement.rooms) }
    {
        let mut rooms = Vec::with_capacity(alloc, 1)?;
        let space = default_space();
        let room = RoomReplay::new(alloc);
        rooms.push(ReadRoom { space, room })?;
        Ok(PlacementReplay { alloc, rooms })
    }

    /// Follows an entry, and says whether it is a good one.
    fn follow_entry(&mut self, entry: &SpaceRecord) -> Result<bool, OutOfMemory>
        ensures { IfOk result (λ good. after_entry self.old (entry_of entry.now) ≡ (if good then Some self.new else None)) }
    {
        match read_place(&self.rooms, &entry.space) {
            Ok(at) => {
                let read_room = &mut self.rooms[at];
                read_room.room.follow(&entry.change)
            }
            Err(at) => {
                let full = self.rooms.len() >= 64;
                if full {
                    return Ok(false);
                }
                let mut room = RoomReplay::new(self.alloc);
                if !room.follow(&entry.change)? {
                    return Ok(false);
                }
                let space = entry.space;
                self.rooms.insert(at, ReadRoom { space, room })?;
                Ok(true)
            }
        }
    }

    /// Follows the next record, and says whether it is a good one: none of its entries is bad for its room or would make
    /// a 65th room, and no two name one space. After a bad record, and after `OutOfMemory`, nothing is said of the rooms.
    pub fn follow(&mut self, record_: &PlacementRecord) -> Result<bool, OutOfMemory>
        ensures { IfOk result (λ good. after_entries self.old (entries_of record_.now) ≡ (if good then Some self.new else None)) }
    {
        let entries = record_.entries.as_slice();
        for i in 0..entries.len() {
            let entry = &entries[i];
            if is_named(&entries[i + 1..], &entry.space) {
                return Ok(false);
            }
            if !self.follow_entry(entry)? {
                return Ok(false);
            }
        }
        Ok(true)
    }

    /// The restart of each room at the moment `now`.
    pub fn restarted(self, now: u64) -> Result<Placement, OutOfMemory>
        ensures state { IfOk result (λ p. p.state ≡ placement_restarted (record { rooms = self }) now) }
        ensures recent { IfOk result (λ p. p.recent ≡ placement_restart_record (record { rooms = self }) now) }
        ensures sound { IfOk result (λ p. IsPlacementSound p.state) }
    {
        let PlacementReplay { alloc, rooms } = self;
        let rooms = restart_read(alloc, rooms, now)?;
        let placement = Placement::from_restarted(alloc, rooms);
        let _rooms = placement.rooms();
        Ok(placement)
    }
}

/// Follows the records in their order.
fn follow_all(replay: &mut PlacementReplay, records: &[PlacementRecord]) -> Result<(), RestoreError>
    ensures after { OnOk result (rooms_after 0 replay.old (map entries_of records.now) ≡ Ok replay.new) }
    ensures bad { IfErr result (λ e. IsBadIn e (rooms_after 0 replay.old (map entries_of records.now))) }
{
    for i in 0..records.len() {
        match replay.follow(&records[i]) {
            Err(_) => return Err(RestoreError::OutOfMemory),
            Ok(false) => return Err(RestoreError::BadRecord { index: i as u64 }),
            Ok(true) => {}
        }
    }
    Ok(())
}

impl Placement {
    /// The restart, at the moment `now`, of the placement after these records; without records it is the opening one.
    /// For the records of a run, in their order, this is the restart of the state at the run's end.
    pub fn restore(
        alloc: Global,
        records: &[PlacementRecord],
        now: u64,
    ) -> Result<Placement, RestoreError>
        ensures restored { IfOk result (λ p. placement_restored (map entries_of records.now) now ≡ Ok p.state) }
        ensures recent { IfOk result (λ p. restored_record (map entries_of records.now) now ≡ p.recent) }
        ensures sound { IfOk result (λ p. IsPlacementSound p.state) }
        ensures bad { IfErr result (λ e. IsBadAt e (placement_restored (map entries_of records.now) now)) }
        ensures run { IfOk result (λ p. (run : List RunEvent) → map entries_of records.now ≡ run_records new_placement run → p.state ≡ placement_restarted (run_state new_placement run) now) }
        ensures run_is_good { IfErr result (λ e. (run : List RunEvent) → map entries_of records.now ≡ run_records new_placement run → e ≡ out_of_memory) }
    {
        let mut replay = match PlacementReplay::new(alloc) {
            Ok(replay) => replay,
            Err(_) => return Err(RestoreError::OutOfMemory),
        };
        match follow_all(&mut replay, records) {
            Err(error) => Err(error),
            Ok(()) => match replay.restarted(now) {
                Ok(placement) => Ok(placement),
                Err(_) => Err(RestoreError::OutOfMemory),
            },
        }
    }
}
