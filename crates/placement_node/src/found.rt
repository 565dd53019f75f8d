// What is found in the payloads of a journal.
ghost use Rattle.std.specs.Prelude.{◌≡◌, ◌+◌, false, ℕ, List, None, Some, IfOk, IfErr, IfSome, OnOk, length};
ghost use Rattle.std.specs.List.{AllByRecursion};
ghost use Rattle.std.specs.declared.result.Result.TheVariants.{Ok};
ghost use Rattle.tx_journal.specs.Calls.{told};
ghost use Rattle.tx_journal.specs.File.{Image};
ghost use Rattle.tx_journal.specs.Pair.{Files, Holds};
ghost use Rattle.placement_node.specs.Found.{after_payload, rooms_found, first_offset, read_error, IsFault, IsPayloadError};
ghost use Rattle.placement_node.specs.Openings.{IsNodeError, NodeCosts};
ghost use Rattle.placement_core.specs.Readings.{entries_of};
ghost use Rattle.placement_payloads.specs.Payloads.{entry};
ghost use Rattle.placement_node.specs.Ranges.{RoomsFit};
ghost use Rattle.placement_node.specs.Records.{record_in, spelled_entry, ReadsRecord};

use crate::error::PlacementOpenError;
use disk_model::Disk;
use placement_core::{PlacementRecord, PlacementReplay, SpaceRecord};
use placement_payloads::{PayloadError, RoomEntry, read_payload};
use std::alloc::Global;
use tx_journal::{Journal, JournalError};

// More payloads than a journal has room for.
const MOST_PAYLOADS: u64 = 1 << 30;

// The offset of a file's first payload.
const FIRST_OFFSET: u64 = 13;

// The entries of the record of which these bytes are the payload.
fn read_entries(alloc: Global, payload: &[u8]) -> Result<PlacementRecord, PayloadError>
    ensures { ReadsRecord result (record_in payload.now) }
{
    let read = read_payload(alloc, payload)?;
    let mut entries = Vec::with_capacity(alloc, read.len())?;
    for one in read {
        let RoomEntry { space, change } = one;
        entries.push(SpaceRecord { space, change })?;
    }
    Ok(PlacementRecord { entries })
}

// The record of which these bytes are the payload. Whatever was read can be written.
fn read_record(alloc: Global, payload: &[u8]) -> Result<PlacementRecord, PayloadError>
    ensures reads { ReadsRecord result (record_in payload.now) }
    ensures fits { IfOk result (λ r. AllByRecursion (λ e. entry.Fits (spelled_entry e)) (entries_of r)) }
{
    read_entries(alloc, payload)
}

// Follows the record of a payload.
fn follow_payload(
    alloc: Global,
    replay: &mut PlacementReplay,
    payload: &[u8],
    index: u64,
    offset: u64,
) -> Result<(), PlacementOpenError>
    requires { RoomsFit replay.old }
    ensures fits { OnOk result (RoomsFit replay.new) }
    ensures followed { OnOk result (after_payload index offset replay.old (record_in payload.now) ≡ Ok replay.new) }
    ensures refused { IfErr result (λ e. IsFault e (after_payload index offset replay.old (record_in payload.now))) }
    ensures errors { IfErr result IsPayloadError }
{
    let one = match read_record(alloc, payload) {
        Ok(one) => one,
        Err(PayloadError::NoReading) => {
            return Err(PlacementOpenError::Journal {
                error: JournalError::Damaged { offset },
            });
        }
        Err(PayloadError::OutOfMemory) => {
            return Err(PlacementOpenError::Journal {
                error: JournalError::OutOfMemory,
            });
        }
    };
    if !replay.follow(&one)? {
        return Err(PlacementOpenError::BadRecord { index, offset });
    }
    Ok(())
}

// The offset of the payload behind one of so many bytes; `None` above 2^64 - 1.
fn next_offset(offset: u64, len: usize) -> Option<u64>
    ensures { IfSome result (λ next. next ≡ offset + 5 + len) }
{
    offset.checked_add(5)?.checked_add(len as u64)
}

// Why a payload wasn't read: the disk failed, or memory ran out.
fn read_error(error: JournalError) -> PlacementOpenError
    ensures { result ≡ read_error error }
{
    PlacementOpenError::Journal {
        error: match error {
            JournalError::DiskFault => JournalError::DiskFault,
            _ => JournalError::OutOfMemory,
        },
    }
}

/// Follows the records of all payloads of a journal, in their order.
pub(crate) fn follow_all<D: Disk>(
    alloc: Global,
    journal: &mut Journal<D>,
    replay: &mut PlacementReplay,
) -> Result<(), PlacementOpenError>
    requires works { journal.old.is_broken ≡ false }
    requires alone { journal.old.other ≡ None }
    requires fits { RoomsFit replay.old }
    ensures fits { OnOk result (RoomsFit replay.new) }
    ensures found { OnOk result ((files : Files) → told journal.old ≡ Some files → (held : Image) → Holds held files → rooms_found 0 first_offset replay.old held.payloads ≡ Ok replay.new) }
    ensures refused { IfErr result (λ e. (files : Files) → told journal.old ≡ Some files → (held : Image) → Holds held files → IsFault e (rooms_found 0 first_offset replay.old held.payloads)) }
    ensures same { journal.new ≡ record journal.old { live = record { told = journal.old.live.told; faults = journal.new.live.faults }; is_broken = journal.new.is_broken } }
    ensures works { OnOk result (journal.new.is_broken ≡ false) }
    ensures errors { IfErr result IsNodeError }
    ensures cause { NodeCosts journal.old.live.faults journal.new.live.faults result }
{
    let mut offset = FIRST_OFFSET;
    for index in 0..=MOST_PAYLOADS {
        let payload = match journal.replay(alloc, index) {
            Ok(Some(payload)) => payload,
            Ok(None) => return Ok(()),
            Err(error) => return Err(read_error(error)),
        };
        follow_payload(alloc, replay, payload.as_slice(), index, offset)?;
        let Some(next) = next_offset(offset, payload.len()) else {
            return Err(PlacementOpenError::Journal {
                error: JournalError::OutOfMemory,
            });
        };
        offset = next;
    }
    Err(PlacementOpenError::Journal {
        error: JournalError::OutOfMemory,
    })
}
