// The kinds of answers and their fields, read from the start of some bytes and appended to others.
ghost use Rattle.std.specs.Prelude.{◌≡◌, ◌++◌, None, OnOk};
ghost use Rattle.wire_fields.specs.Fields.{many_at, spell_all, in_any_order, AllFit};
ghost use Rattle.wire_fields.specs.Gives.{Gives};
ghost use Rattle.frame_wire.specs.StoreParts.{due_entry, due_entries};
ghost use Rattle.frame_wire.specs.Store.{answer_kind, answer_row, answer_fields, AnswerFits};
ghost use Rattle.frame_wire.specs.declared.store_kind.AnswerKind.TheVariants as kinds;

use crate::store_answer::{DueEntries, DueEntry, StoreAnswer};
use crate::store_kind::AnswerKind;
use crate::store_refusals::{put_store_refusal, store_refusal_at};
use lists_and_limits::OutOfMemory;
use state_rows::StateValue;
use std::alloc::Global;
use wire_fields::{
    Fault, blob_at, boot_at, due_key_at, flag_at, next_at, payload_at, put_blob, put_boot,
    put_due_key, put_flag, put_next, put_payload, put_reminder_text, put_u16, reminder_text_at,
    u16_at,
};

#[tactic(auto, unfolding(crate::specs::StoreParts::due_entry))]
fn due_entry_at(alloc: Global, rest: &mut &[u8]) -> Result<DueEntry, Fault>
    ensures { Gives (λ x. (x, rest.new.now)) result (due_entry.at rest.old.now) }
{
    let key = due_key_at(alloc, rest)?;
    let due = reminder_text_at(alloc, rest)?;
    let period = reminder_text_at(alloc, rest)?;
    let payload = payload_at(alloc, rest)?;
    Ok(DueEntry {
        key,
        due,
        period,
        payload,
    })
}

fn entry_list_at(alloc: Global, count: u16, rest: &mut &[u8]) -> Result<Vec<DueEntry>, Fault>
    ensures { Gives (λ x. (x.items, rest.new.now)) result (many_at (in_any_order due_entry) None count rest.old.now) }
{
    let mut entries = Vec::new(alloc);
    for _ in 0..count {
        let entry = due_entry_at(alloc, rest)?;
        entries.push(entry)?;
    }
    Ok(entries)
}

#[tactic(auto, unfolding(crate::specs::StoreParts::due_entries))]
fn due_entries_at(alloc: Global, rest: &mut &[u8]) -> Result<DueEntries, Fault>
    ensures { Gives (λ x. (x, rest.new.now)) result (due_entries.at rest.old.now) }
{
    let count = u16_at(rest)?;
    let items = entry_list_at(alloc, count, rest)?;
    Ok(DueEntries::from_vec(items))
}

fn reminder_is_at(alloc: Global, rest: &mut &[u8]) -> Result<StoreAnswer, Fault>
    ensures { Gives (λ x. (x, rest.new.now)) result (answer_row kinds.ReminderIs rest.old.now) }
{
    let due = reminder_text_at(alloc, rest)?;
    let period = reminder_text_at(alloc, rest)?;
    let ttl = reminder_text_at(alloc, rest)?;
    let payload = payload_at(alloc, rest)?;
    Ok(StoreAnswer::ReminderIs {
        due,
        period,
        ttl,
        payload,
    })
}

fn value_at(alloc: Global, rest: &mut &[u8]) -> Result<StoreAnswer, Fault>
    ensures { Gives (λ x. (x, rest.new.now)) result (answer_row kinds.Value rest.old.now) }
{
    let value = StateValue::from_vec(blob_at(alloc, rest)?);
    Ok(StoreAnswer::Value { value })
}

// The fields of a kind.
pub(crate) fn answer_at(
    alloc: Global,
    kind: AnswerKind,
    rest: &mut &[u8],
) -> Result<StoreAnswer, Fault>
    ensures { Gives (λ x. (x, rest.new.now)) result (answer_row kind rest.old.now) }
{
    match kind {
        AnswerKind::Booted => Ok(StoreAnswer::Booted {
            boot: boot_at(rest)?,
        }),
        AnswerKind::Done => Ok(StoreAnswer::Done {
            existed: flag_at(rest)?,
        }),
        AnswerKind::Value => value_at(alloc, rest),
        AnswerKind::NotThere => Ok(StoreAnswer::NotThere),
        AnswerKind::ReminderIs => reminder_is_at(alloc, rest),
        AnswerKind::DueList => Ok(StoreAnswer::DueList {
            entries: due_entries_at(alloc, rest)?,
        }),
        AnswerKind::NextIs => Ok(StoreAnswer::NextIs {
            next: next_at(rest)?,
        }),
        AnswerKind::Refused => Ok(StoreAnswer::Refused {
            refusal: store_refusal_at(rest)?,
        }),
    }
}

// The kind of an answer.
pub(crate) fn answer_kind(answer: &StoreAnswer) -> AnswerKind
    ensures { result ≡ answer_kind answer.now }
{
    match answer {
        StoreAnswer::Booted { .. } => AnswerKind::Booted,
        StoreAnswer::Done { .. } => AnswerKind::Done,
        StoreAnswer::Value { .. } => AnswerKind::Value,
        StoreAnswer::NotThere => AnswerKind::NotThere,
        StoreAnswer::ReminderIs { .. } => AnswerKind::ReminderIs,
        StoreAnswer::DueList { .. } => AnswerKind::DueList,
        StoreAnswer::NextIs { .. } => AnswerKind::NextIs,
        StoreAnswer::Refused { .. } => AnswerKind::Refused,
    }
}

#[tactic(auto, unfolding(crate::specs::StoreParts::due_entry))]
fn put_due_entry(out: &mut Vec<u8>, one: &DueEntry) -> Result<(), OutOfMemory>
    requires { due_entry.Fits one.now }
    ensures { OnOk result (out.new.items ≡ out.old.items ++ due_entry.spell one.now) }
{
    put_due_key(out, &one.key)?;
    put_reminder_text(out, &one.due)?;
    put_reminder_text(out, &one.period)?;
    put_payload(out, &one.payload)
}

fn put_entry_list(out: &mut Vec<u8>, entries: &[DueEntry]) -> Result<(), OutOfMemory>
    requires { AllFit (in_any_order due_entry) None entries.now }
    ensures { OnOk result (out.new.items ≡ out.old.items ++ spell_all due_entry.spell entries.now) }
{
    for one in entries {
        put_due_entry(out, one)?;
    }
    Ok(())
}

#[tactic(auto, unfolding(crate::specs::StoreParts::due_entries, wire_fields::specs::Fields::number16))]
fn put_due_entries(out: &mut Vec<u8>, entries: &[DueEntry]) -> Result<(), OutOfMemory>
    requires { due_entries.Fits entries.now }
    ensures { OnOk result (out.new.items ≡ out.old.items ++ due_entries.spell entries.now) }
{
    put_u16(out, entries.len() as u16)?;
    put_entry_list(out, entries)
}

// Writes the fields of an answer.
pub(crate) fn put_answer_fields(out: &mut Vec<u8>, answer: &StoreAnswer) -> Result<(), OutOfMemory>
    requires { AnswerFits answer.now }
    ensures { OnOk result (out.new.items ≡ out.old.items ++ answer_fields answer.now) }
{
    match answer {
        StoreAnswer::Booted { boot } => put_boot(out, *boot),
        StoreAnswer::Done { existed } => put_flag(out, *existed),
        StoreAnswer::Value { value } => put_blob(out, value.as_slice()),
        StoreAnswer::NotThere => Ok(()),
        StoreAnswer::ReminderIs {
            due,
            period,
            ttl,
            payload,
        } => {
            put_reminder_text(out, due)?;
            put_reminder_text(out, period)?;
            put_reminder_text(out, ttl)?;
            put_payload(out, payload)
        }
        StoreAnswer::DueList { entries } => put_due_entries(out, entries.as_slice()),
        StoreAnswer::NextIs { next } => put_next(out, *next),
        StoreAnswer::Refused { refusal } => put_store_refusal(out, refusal),
    }
}
