// The reminders that are due, as they are told.
ghost use Rattle.std.specs.Prelude.{◌≡◌, ◌<◌, ◌^◌, length, true, if◌then◌else◌, List, option_copied, IfOk};
ghost use Rattle.wire_fields.specs.Fields.{maybe};
ghost use Rattle.wire_fields.specs.Records.{blob, due_key};
ghost use Rattle.reminder_rows.specs.Reminders.{row_at, reminder_in};
ghost use Rattle.frame_wire.specs.declared.store_answer.DueEntry.{DueEntry};
ghost use Rattle.store_tables.specs.Dues.{entry_of, with_entry, entries_of, entry_size, fitting, told_with, entries_room, due_list};

use crate::answers::{copied_payload, copied_text};
use actor_names::OutOfMemory;
use frame_wire::{DueEntries, DueEntry};
use reminder_rows::{DueKey, Reminder, ReminderPayload, ReminderRows};
use schedule_text::Moment;
use std::alloc::Global;

// The bytes that the entries of one frame may have.
const ENTRIES_ROOM: u128 = 5_242_877;

// The bytes of a payload in a frame.
fn payload_size(payload: &Option<ReminderPayload>) -> u128
    ensures size { result ≡ length ((maybe blob).spell payload.now) }
    ensures bound { result < 2 ^ 70 }
{
    match payload {
        None => 1,
        Some(payload) => 5 + payload.as_slice().len() as u128,
    }
}

// The bytes of an actor and a name in a frame.
fn key_size(key: &DueKey) -> u128
    ensures size { result ≡ length (due_key.spell key.now) }
    ensures bound { result < 2 ^ 70 }
{
    let actor = &key.actor;
    let names = actor.space.as_slice().len() as u128
        + actor.kind.as_slice().len() as u128
        + actor.id.as_slice().len() as u128;
    20 + names + key.name.as_slice().len() as u128
}

// The bytes in a frame of what is told of a reminder.
fn size_of_entry(key: &DueKey, reminder: &Reminder) -> u128
    ensures { result ≡ entry_size (entry_of key.now reminder.now) }
{
    let texts = reminder.due.as_str().len() as u128 + reminder.period.as_str().len() as u128;
    key_size(key) + 4 + texts + payload_size(&reminder.payload)
}

// What is told of a reminder under this key.
fn entry_of(alloc: Global, key: DueKey, reminder: &Reminder) -> Result<DueEntry, OutOfMemory>
    ensures { IfOk result (λ entry. entry ≡ entry_of key reminder.now) }
{
    let due = copied_text(alloc, &reminder.due)?;
    let period = copied_text(alloc, &reminder.period)?;
    let payload = copied_payload(alloc, &reminder.payload)?;
    Ok(DueEntry {
        key,
        due,
        period,
        payload,
    })
}

// Tells of the reminder under this key, if there is one and it has room, or is the first one. Answers whether there may
// be room for others.
fn told_next(
    alloc: Global,
    reminders: &ReminderRows,
    key: DueKey,
    entries: &mut Vec<DueEntry>,
    room: &mut u128,
) -> Result<bool, OutOfMemory>
    ensures { IfOk result (λ more. (rest : List DueEntry) → told_with entries.old.items room.old (with_entry key (reminder_in (row_at key.actor key.name reminders.now.rows)) rest) ≡ (if more then told_with entries.new.items room.new rest else entries.new.items)) }
{
    let Some(reminder) = reminders.get(&key.actor, &key.name) else {
        return Ok(true);
    };
    let size = size_of_entry(&key, reminder);
    if !entries.is_empty() && size > *room {
        return Ok(false);
    }
    let entry = entry_of(alloc, key, reminder)?;
    entries.push(entry)?;
    *room = room.saturating_sub(size);
    Ok(true)
}

// What is told of the reminders under these keys, as far as it has room in one frame.
fn entries_of(
    alloc: Global,
    reminders: &ReminderRows,
    keys: Vec<DueKey>,
) -> Result<Vec<DueEntry>, OutOfMemory>
    ensures { IfOk result (λ entries. entries.items ≡ fitting true entries_room (entries_of reminders.now.rows keys.items)) }
{
    let mut entries = Vec::new(alloc);
    let mut room = ENTRIES_ROOM;
    for key in keys {
        if !told_next(alloc, reminders, key, &mut entries, &mut room)? {
            return Ok(entries);
        }
    }
    Ok(entries)
}

/// The reminders that are due at `now` behind `after`, at most `limit`: as many as one frame carries, but the first one
/// in any case.
pub(crate) fn due_list(
    alloc: Global,
    reminders: &ReminderRows,
    now: Moment,
    after: Option<&DueKey>,
    limit: u16,
) -> Result<DueEntries, OutOfMemory>
    ensures { IfOk result (λ entries. entries ≡ due_list now (option_copied after.entry) limit reminders.now.rows) }
{
    let keys = reminders.due(now, after, limit)?;
    let entries = entries_of(alloc, reminders, keys)?;
    Ok(DueEntries::from_vec(entries))
}
