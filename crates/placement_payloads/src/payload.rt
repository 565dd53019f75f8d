// Payloads: entries behind a first byte and a count, and the old form.
ghost use Rattle.std.specs.Prelude.{◌≡◌, ◌++◌, ◌≤◌, None, OnOk};
ghost use Rattle.round_core.specs.Records.{record_of};
ghost use Rattle.wire_fields.specs.Fields.{many_at, in_any_order, whole};
ghost use Rattle.wire_fields.specs.Gives.{Gives};
ghost use Rattle.placement_payloads.specs.Payloads.{change, entry, entries, payload, payload_start, old_form, payload_reading};
ghost use Rattle.placement_payloads.specs.Gives.{entry_of, entries_of, GivesPayload};

use crate::entry::RoomEntry;
use crate::error::PayloadError;
use crate::hosts::{joined_at, put_joined};
use crate::members::{members_at, put_members};
use actor_names::{OutOfMemory, Space, default_space};
use round_core::RoomRecord;
use std::alloc::Global;
use wire_fields::{Fault, counter_at, put_counter, put_space, put_tag, put_u16, space_at, u16_at};

/// The most entries of a payload: no placement has more rooms.
pub const MOST_ENTRIES: u16 = 64;

#[tactic(auto, unfolding(crate::specs::Payloads::change))]
fn change_at(alloc: Global, space: &Space, rest: &mut &[u8]) -> Result<RoomRecord, Fault>
    ensures { Gives (λ x. (record_of x, rest.new.now)) result ((change space.now).at rest.old.now) }
{
    let joined = joined_at(alloc, space, rest)?;
    let removed = members_at(alloc, space, rest)?;
    let next_version = counter_at(rest)?;
    Ok(RoomRecord {
        joined,
        removed,
        next_version,
    })
}

#[tactic(auto, unfolding(crate::specs::Payloads::entry))]
fn entry_at(alloc: Global, rest: &mut &[u8]) -> Result<RoomEntry, Fault>
    ensures { Gives (λ x. (entry_of x, rest.new.now)) result (entry.at rest.old.now) }
{
    let space = space_at(rest)?;
    let change = change_at(alloc, &space, rest)?;
    Ok(RoomEntry { space, change })
}

fn entry_list_at(alloc: Global, count: u16, rest: &mut &[u8]) -> Result<Vec<RoomEntry>, Fault>
    ensures { Gives (λ x. (entries_of x.items, rest.new.now)) result (many_at (in_any_order entry) None count rest.old.now) }
{
    let mut entries = Vec::new(alloc);
    for _ in 0..count {
        let entry = entry_at(alloc, rest)?;
        entries.push(entry)?;
    }
    Ok(entries)
}

#[tactic(auto, unfolding(crate::specs::Payloads::entries))]
fn entries_at(alloc: Global, rest: &mut &[u8]) -> Result<Vec<RoomEntry>, Fault>
    ensures { Gives (λ x. (entries_of x.items, rest.new.now)) result (entries.at rest.old.now) }
{
    let left = rest.len();
    let count = u16_at(rest)?;
    if count > MOST_ENTRIES {
        return Err(Fault::Field { left });
    }
    entry_list_at(alloc, count, rest)
}

#[tactic(auto, unfolding(crate::specs::Payloads::payload))]
fn payload_at(alloc: Global, rest: &mut &[u8]) -> Result<Vec<RoomEntry>, Fault>
    ensures { Gives (λ x. (entries_of x.items, rest.new.now)) result (payload.at rest.old.now) }
{
    match *rest {
        [2, others @ ..] => {
            *rest = others;
            entries_at(alloc, rest)
        }
        _ => Err(Fault::Field { left: rest.len() }),
    }
}

// The entries whose spelling in the new form is these bytes.
fn whole_payload(alloc: Global, bytes: &[u8]) -> Result<Vec<RoomEntry>, Fault>
    ensures { Gives (λ x. entries_of x.items) result (whole payload.at bytes.now) }
{
    let mut rest = bytes;
    let entries = payload_at(alloc, &mut rest)?;
    if !rest.is_empty() {
        return Err(Fault::Field { left: rest.len() });
    }
    Ok(entries)
}

// The change whose spelling in the old form is these bytes.
#[tactic(auto, unfolding(crate::specs::Payloads::old_form))]
fn whole_old_form(alloc: Global, bytes: &[u8]) -> Result<RoomRecord, Fault>
    ensures { Gives (λ x. record_of x) result (whole old_form.at bytes.now) }
{
    let mut rest = bytes;
    let change = change_at(alloc, &default_space(), &mut rest)?;
    if !rest.is_empty() {
        return Err(Fault::Field { left: rest.len() });
    }
    Ok(change)
}

/// Reads the entries of a payload. `NoReading` exactly if these bytes are the spelling of none, in the new form or, if
/// they begin with 0 or 1, in the old one, a change of the room of `default`.
pub fn read_payload(alloc: Global, bytes: &[u8]) -> Result<Vec<RoomEntry>, PayloadError>
    ensures { GivesPayload (λ x. entries_of x.items) result (payload_reading bytes.now) }
{
    let [first, ..] = bytes else {
        return Err(PayloadError::NoReading);
    };
    if *first > 1 {
        let entries = whole_payload(alloc, bytes)?;
        return Ok(entries);
    }
    let change = whole_old_form(alloc, bytes)?;
    let mut entries = Vec::new(alloc);
    entries.push(RoomEntry {
        space: default_space(),
        change,
    })?;
    Ok(entries)
}

/// Appends what comes before the entries of a payload: a first byte, and the number of the entries. As many have to
/// follow, by `put_entry`.
#[tactic(auto, unfolding(crate::specs::Payloads::payload_start))]
pub fn put_payload_start(out: &mut Vec<u8>, count: u16) -> Result<(), OutOfMemory>
    requires { count ≤ 64 }
    ensures { OnOk result (out.new.items ≡ out.old.items ++ payload_start count) }
{
    put_tag(out, 2)?;
    put_u16(out, count)
}

/// Appends an entry: a space, and the change of its room. After `OutOfMemory` a part of it may have been appended.
#[tactic(auto, unfolding(crate::specs::Payloads::entry, crate::specs::Payloads::change, crate::specs::Payloads::local_host))]
pub fn put_entry(out: &mut Vec<u8>, space: &Space, change: &RoomRecord) -> Result<(), OutOfMemory>
    requires { entry.Fits (space.now, record_of change.now) }
    ensures { OnOk result (out.new.items ≡ out.old.items ++ entry.spell (space.now, record_of change.now)) }
{
    put_space(out, space)?;
    put_joined(out, &change.joined)?;
    put_members(out, change.removed.as_slice())?;
    put_counter(out, change.next_version)?;
    Ok(())
}
