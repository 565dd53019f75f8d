// A reminder as it is told to who asks for it.
ghost use Rattle.std.specs.Prelude.{◌≡◌, ◌++◌, map, IfOk, OnOk};
ghost use Rattle.json_text.specs.Written.{member_text};
ghost use Rattle.api_bodies.specs.Told.{given_text, given_value, reminder_body};

use json_text::{Member, Piece, object_text};
use lists_and_limits::OutOfMemory;
use reminder_rows::{ReminderPayload, ReminderText};
use std::alloc::Global;

// Appends the member of a text, if that isn't empty.
fn add_text<'a>(
    members: &mut Vec<Member<'a>>,
    key: &'a str,
    text: &'a str,
) -> Result<(), OutOfMemory>
    ensures { OnOk result (map member_text members.new.items
        ≡ map member_text members.old.items ++ given_text key.now text.now) }
{
    if !text.is_empty() {
        members.push(Member {
            key,
            value: Piece::Text(text),
        })?;
    }
    Ok(())
}

// Appends the member of a JSON text, if there is one and it isn't empty.
fn add_value<'a>(
    members: &mut Vec<Member<'a>>,
    key: &'a str,
    value: &'a Option<ReminderPayload>,
) -> Result<(), OutOfMemory>
    ensures { OnOk result (map member_text members.new.items
        ≡ map member_text members.old.items ++ given_value key.now value.now) }
{
    if let Some(value) = value {
        let text = value.as_slice();
        if !text.is_empty() {
            members.push(Member {
                key,
                value: Piece::Kept(text),
            })?;
        }
    }
    Ok(())
}

/// The object of what was given of a reminder: its payload, which has to be a JSON text, and its texts.
pub fn write_reminder(
    alloc: Global,
    due: &ReminderText,
    period: &ReminderText,
    ttl: &ReminderText,
    payload: &Option<ReminderPayload>,
) -> Result<Vec<u8>, OutOfMemory>
    ensures { IfOk result (λ body. body.items ≡ reminder_body due.now period.now ttl.now payload.now) }
{
    let mut members = Vec::new(alloc);
    add_value(&mut members, "data", payload)?;
    add_text(&mut members, "dueTime", due.as_str())?;
    add_text(&mut members, "period", period.as_str())?;
    add_text(&mut members, "ttl", ttl.as_str())?;
    Ok(object_text(alloc, &members)?)
}
