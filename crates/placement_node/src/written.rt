// The payload of what a step or a restart has to record, and its way to the journal.
ghost use Rattle.std.specs.Prelude.{◌≡◌, ◌++◌, ◌≤◌, false, [], ◌∷◌, IfOk, OnOk, length, map, if◌then◌else◌};
ghost use Rattle.wire_fields.specs.Fields.{spell_all};
ghost use Rattle.placement_payloads.specs.Payloads.{entry, payload_start};
ghost use Rattle.placement_node.specs.Writes.{kept_of, AllWritten, Written};
ghost use Rattle.placement_node.specs.Ranges.{RecordFits};
ghost use Rattle.placement_node.specs.Records.{payloads_of, spelled_entry};

use actor_names::OutOfMemory;
use disk_model::Disk;
use placement_core::Placement;
use placement_payloads::{put_entry, put_payload_start};
use tx_journal::{Journal, JournalError};

// How many entries there are to record.
fn entry_count(placement: &Placement) -> u16
    requires { length placement.now.recent ≤ 64 }
    ensures { result ≡ length placement.now.recent }
{
    for at in 0..64u16 {
        if placement.entry(at as usize).is_none() {
            return at;
        }
    }
    64
}

// Appends so many entries, from the first on.
fn put_entries(placement: &Placement, count: u16, out: &mut Vec<u8>) -> Result<(), OutOfMemory>
    requires fits { RecordFits placement.now.recent }
    requires all { count ≡ length placement.now.recent }
    ensures { OnOk result (out.new.items ≡ out.old.items ++ spell_all entry.spell (map spelled_entry placement.now.recent)) }
{
    for at in 0..count {
        match placement.entry(at as usize) {
            Some(one) => put_entry(out, &one.space, one.change)?,
            None => unreachable!(),
        }
    }
    Ok(())
}

// Writes the payload of what the last step or restart has to record over these bytes. False if there is nothing.
fn put_record(placement: &Placement, out: &mut Vec<u8>) -> Result<bool, OutOfMemory>
    requires { RecordFits placement.now.recent }
    ensures { IfOk result (λ some. payloads_of placement.now.recent ≡ (if some then out.new.items ∷ [] else [])) }
{
    out.clear();
    let count = entry_count(placement);
    if count == 0 {
        return Ok(false);
    }
    put_payload_start(out, count)?;
    put_entries(placement, count, out)?;
    Ok(true)
}

/// What came of a record that was to be written.
#[derive(Clone, Copy)]
pub(crate) enum Kept {
    /// It is on the disk, or there was nothing to write.
    Done,
    /// There was no memory.
    NoMemory,
    /// The journal, which has `len` bytes, has no room for it.
    NoRoom { len: u64 },
    /// The disk failed.
    Failed,
}

// What came of a record that wasn't appended. No record of a placement is too long for a journal, so that answer counts
// as running out of memory.
fn kept_of(error: JournalError) -> Kept
    ensures { result ≡ kept_of error }
{
    match error {
        JournalError::DiskFault => Kept::Failed,
        JournalError::Full { len } => Kept::NoRoom { len },
        _ => Kept::NoMemory,
    }
}

// Appends a payload to a journal that has met no fault.
fn write<D: Disk>(journal: &mut Journal<D>, payload: &[u8]) -> Kept
    requires { journal.old.is_broken ≡ false }
    ensures { Written payload.now result journal.old journal.new }
{
    match journal.append(payload) {
        Ok(()) => Kept::Done,
        Err(error) => kept_of(error),
    }
}

/// Writes what the last step or restart of a placement has to record to a journal that has met no fault.
pub(crate) fn write_record<D: Disk>(
    placement: &Placement,
    buffer: &mut Vec<u8>,
    journal: &mut Journal<D>,
) -> Kept
    requires works { journal.old.is_broken ≡ false }
    requires fits { RecordFits placement.now.recent }
    ensures { AllWritten (payloads_of placement.now.recent) result journal.old journal.new }
{
    match put_record(placement, buffer) {
        Err(_) => Kept::NoMemory,
        Ok(false) => Kept::Done,
        Ok(true) => write(journal, buffer.as_slice()),
    }
}
