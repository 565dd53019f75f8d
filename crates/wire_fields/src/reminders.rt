// Reminders, read from the start of some bytes and appended to others.
ghost use Rattle.std.specs.Prelude.{◌≡◌, ◌++◌, OnOk};
ghost use Rattle.wire_fields.specs.Fields.{maybe, MaybeFits};
ghost use Rattle.wire_fields.specs.Gives.{Gives};
ghost use Rattle.wire_fields.specs.Records.{text, blob, reminder};

use crate::fault::Fault;
use crate::numbers::put_tag;
use crate::schedules::{put_schedule, schedule_at};
use crate::texts::{blob_at, put_blob, put_text, text_at};
use lists_and_limits::OutOfMemory;
use reminder_rows::{Reminder, ReminderPayload, ReminderText};
use std::alloc::Global;

/// Reads a text of a reminder.
pub fn reminder_text_at(alloc: Global, rest: &mut &[u8]) -> Result<ReminderText, Fault>
    ensures { Gives (λ x. (x, rest.new.now)) result (text.at rest.old.now) }
{
    let text = text_at(alloc, rest)?;
    Ok(ReminderText::from_string(text))
}

/// Reads what the callback of a reminder is given, if it is given anything.
pub fn payload_at(alloc: Global, rest: &mut &[u8]) -> Result<Option<ReminderPayload>, Fault>
    ensures { Gives (λ x. (x, rest.new.now)) result ((maybe blob).at rest.old.now) }
{
    match *rest {
        [0, others @ ..] => {
            *rest = others;
            Ok(None)
        }
        [1, others @ ..] => {
            *rest = others;
            let bytes = blob_at(alloc, rest)?;
            Ok(Some(ReminderPayload::from_vec(bytes)))
        }
        _ => Err(Fault::Field { left: rest.len() }),
    }
}

/// Reads a reminder: schedule, text of due, of period, of ttl, payload.
#[tactic(auto, unfolding(crate::specs::Records::reminder))]
pub fn reminder_at(alloc: Global, rest: &mut &[u8]) -> Result<Reminder, Fault>
    ensures { Gives (λ x. (x, rest.new.now)) result (reminder.at rest.old.now) }
{
    let schedule = schedule_at(rest)?;
    let due = reminder_text_at(alloc, rest)?;
    let period = reminder_text_at(alloc, rest)?;
    let ttl = reminder_text_at(alloc, rest)?;
    let payload = payload_at(alloc, rest)?;
    Ok(Reminder {
        schedule,
        due,
        period,
        ttl,
        payload,
    })
}

/// Appends a text of a reminder, of at most 65,535 bytes.
pub fn put_reminder_text(out: &mut Vec<u8>, one: &ReminderText) -> Result<(), OutOfMemory>
    requires { text.Fits one.now }
    ensures { OnOk result (out.new.items ≡ out.old.items ++ text.spell one.now) }
{
    put_text(out, one.as_str())
}

/// Appends what the callback of a reminder is given, if it is given anything.
pub fn put_payload(out: &mut Vec<u8>, one: &Option<ReminderPayload>) -> Result<(), OutOfMemory>
    requires { MaybeFits blob.Fits one.now }
    ensures { OnOk result (out.new.items ≡ out.old.items ++ (maybe blob).spell one.now) }
{
    match one {
        None => put_tag(out, 0),
        Some(payload) => {
            put_tag(out, 1)?;
            put_blob(out, payload.as_slice())
        }
    }
}

/// Appends a reminder.
#[tactic(auto, unfolding(crate::specs::Records::reminder))]
pub fn put_reminder(out: &mut Vec<u8>, one: &Reminder) -> Result<(), OutOfMemory>
    requires { reminder.Fits one.now }
    ensures { OnOk result (out.new.items ≡ out.old.items ++ reminder.spell one.now) }
{
    put_schedule(out, &one.schedule)?;
    put_reminder_text(out, &one.due)?;
    put_reminder_text(out, &one.period)?;
    put_reminder_text(out, &one.ttl)?;
    put_payload(out, &one.payload)
}
