// The members, boots and version that are read from the records of a run.
ghost use Rattle.std.specs.Prelude.{◌≡◌, ◌≤◌, Some, None, map, IfOk, IfErr, OnOk, if◌then◌else◌};
ghost use Rattle.round_core.specs.Room.{RoomState};
ghost use Rattle.round_core.specs.Sound.{IsRoomSound};
ghost use Rattle.round_core.specs.Records.{record_of, after_join, after_record, after_records, IsBadAt};
ghost use Rattle.std.specs.declared.result.Result.TheVariants.{Ok};

use crate::admission::admit;
use crate::record::RoomRecord;
use crate::rounds::{Rounds, VERSION_LIMIT};
use actor_names::OutOfMemory;
use member_roster::MemberList;
use place_table::HostInfo;
use std::alloc::Global;
use thiserror::Error;

/// Why no room is restored from some records.
#[derive(Clone, Copy, Debug, Error)]
pub enum RestoreError {
    /// The record at `index`, counted from 0, is the first bad one: it removes somebody who isn't a member, it joins
    /// a node that has a member, a boot that isn't above the node's greatest one, a 257th member or a 65,537th
    /// known node, or its next version is below the one before it or above 2^62.
    #[error("record {index} is bad")]
    BadRecord { index: u64 },
    /// There was no memory for the room.
    #[error("out of memory")]
    OutOfMemory,
}

/// A host joins again, if it may; says whether it may. It counts as heard at 0 until the restart.
fn join_again(
    alloc: Global,
    rounds: &mut Rounds,
    removed: &mut MemberList,
    host: &HostInfo,
) -> Result<bool, OutOfMemory>
    requires capacity { rounds.old.capacity ≤ removed.old.capacity }
    requires sound { IsRoomSound rounds.old.state }
    ensures joined { IfOk result (λ b. after_join rounds.old.state (Some host.now) ≡ (if b then Some rounds.new.state else None)) }
    ensures capacity { rounds.new.capacity ≤ removed.new.capacity }
    ensures sound { IsRoomSound rounds.new.state }
{
    if !rounds.may_join(host) {
        return Ok(false);
    }
    let copy = host.copy(alloc)?;
    admit(alloc, rounds, removed, copy, 0)?;
    Ok(true)
}

/// The host of a record joins again, if the record has one.
fn join_recorded(
    alloc: Global,
    rounds: &mut Rounds,
    removed: &mut MemberList,
    joined: &Option<HostInfo>,
) -> Result<bool, OutOfMemory>
    requires capacity { rounds.old.capacity ≤ removed.old.capacity }
    requires sound { IsRoomSound rounds.old.state }
    ensures joined { IfOk result (λ b. after_join rounds.old.state joined.now ≡ (if b then Some rounds.new.state else None)) }
    ensures capacity { rounds.new.capacity ≤ removed.new.capacity }
    ensures sound { IsRoomSound rounds.new.state }
{
    match joined {
        None => Ok(true),
        Some(host) => join_again(alloc, rounds, removed, host),
    }
}

/// Replays a record; false if it is bad.
pub(crate) fn apply_record(
    alloc: Global,
    rounds: &mut Rounds,
    removed: &mut MemberList,
    record_: &RoomRecord,
) -> Result<bool, OutOfMemory>
    requires capacity { rounds.old.capacity ≤ removed.old.capacity }
    requires sound { IsRoomSound rounds.old.state }
    ensures after { IfOk result (λ b. after_record rounds.old.state (record_of record_.now) ≡ (if b then Some rounds.new.state else None)) }
    ensures capacity { rounds.new.capacity ≤ removed.new.capacity }
    ensures sound { IsRoomSound rounds.new.state }
{
    let next = record_.next_version;
    if next < rounds.next_version() || next > VERSION_LIMIT {
        return Ok(false);
    }
    if !rounds.remove_all(record_.removed.as_slice()) {
        return Ok(false);
    }
    if !join_recorded(alloc, rounds, removed, &record_.joined)? {
        return Ok(false);
    }
    rounds.set_version(next);
    Ok(true)
}

/// Replays the records in their order.
pub(crate) fn apply_records(
    alloc: Global,
    rounds: &mut Rounds,
    removed: &mut MemberList,
    records: &[RoomRecord],
) -> Result<(), RestoreError>
    requires capacity { rounds.old.capacity ≤ removed.old.capacity }
    requires sound { IsRoomSound rounds.old.state }
    ensures after { OnOk result (after_records 0 rounds.old.state (map record_of records.now) ≡ Ok rounds.new.state) }
    ensures bad { IfErr result (λ e. IsBadAt e (after_records 0 rounds.old.state (map record_of records.now))) }
    ensures capacity { rounds.new.capacity ≤ removed.new.capacity }
    ensures sound { IsRoomSound rounds.new.state }
{
    for i in 0..records.len() {
        match apply_record(alloc, rounds, removed, &records[i]) {
            Err(_) => return Err(RestoreError::OutOfMemory),
            Ok(false) => return Err(RestoreError::BadRecord { index: i as u64 }),
            Ok(true) => {}
        }
    }
    Ok(())
}
