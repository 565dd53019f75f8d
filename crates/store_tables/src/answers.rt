// What is answered, by what the lanes, the state and the reminders say.
ghost use Rattle.std.specs.Prelude.{◌≡◌, ℕ, option_copied, option_map, None, IfOk, OnErr};
ghost use Rattle.std.specs.Result.{result_err};
ghost use Rattle.state_rows.specs.Checks.{ops_fault};
ghost use Rattle.reminder_rows.specs.Reminders.{row_at, fired_answer, AreTimely};
ghost use Rattle.stamp_lanes.specs.Stamps.{look, draw_fault};
ghost use Rattle.store_tables.specs.Tables.{HasValues, kept_as, look_answer, boot_answer, state_refusal, ops_answer, value_answer, reminder_answer, fired_refusal};

use actor_names::{ActorKey, Node, OutOfMemory, RecordName, Space};
use frame_wire::{StoreAnswer, StoreRefusal};
use reminder_rows::{FiredError, Reminder, ReminderPayload, ReminderRows, ReminderText};
use schedule_text::Moment;
use stamp_lanes::{BootError, LaneAnswer, StampError, StampLanes, StampLook};
use state_rows::{StateError, StateOp, StateRows, StateValue};
use std::alloc::Global;

/// An answer that a lane keeps.
pub(crate) fn kept_as(answer: &LaneAnswer) -> StoreAnswer
    ensures { result ≡ kept_as answer.now }
{
    match answer {
        LaneAnswer::Done { existed } => StoreAnswer::Done { existed: *existed },
        LaneAnswer::NextIs { next } => StoreAnswer::NextIs { next: *next },
    }
}

/// What a stamp that isn't fresh is told.
pub(crate) fn look_answer(look: Result<StampLook, StampError>) -> Option<StoreAnswer>
    ensures { result ≡ look_answer look }
{
    let refusal = match look {
        Ok(StampLook::Fresh) => return None,
        Ok(StampLook::Kept { answer }) => return Some(kept_as(&answer)),
        Err(StampError::OtherBoot { greatest }) => StoreRefusal::OtherBoot { greatest },
        Err(StampError::OldSeq { floor }) => StoreRefusal::OldSeq { floor },
    };
    Some(StoreAnswer::Refused { refusal })
}

/// What a node that can't draw a boot is told.
pub(crate) fn boot_answer(
    lanes: &StampLanes,
    space: &Space,
    node: &Node,
) -> Result<Option<StoreAnswer>, OutOfMemory>
    ensures answer { IfOk result (λ answer. answer ≡ boot_answer (draw_fault space.now node.now lanes.now.nodes)) }
    ensures memory { OnErr result (boot_answer (draw_fault space.now node.now lanes.now.nodes) ≡ None) }
{
    let refusal = match lanes.prepare_boot(space, node) {
        Ok(_boot) => return Ok(None),
        Err(BootError::NodesFull { nodes }) => StoreRefusal::NodesFull { nodes },
        Err(BootError::Spent) => StoreRefusal::Spent,
        Err(BootError::OutOfMemory) => return Err(OutOfMemory),
    };
    Ok(Some(StoreAnswer::Refused { refusal }))
}

// Why operations are refused.
fn state_refusal(error: StateError) -> StoreRefusal
    ensures { result ≡ state_refusal error }
{
    match error {
        StateError::TooManyOps { n } => StoreRefusal::TooManyOps { n },
        StateError::KeyTooLong { op, n } => StoreRefusal::KeyTooLong { op, n },
        StateError::ValueTooLong { op, n } => StoreRefusal::ValueTooLong { op, n },
        StateError::OutOfMemory => StoreRefusal::OutOfMemory,
    }
}

/// What operations that are refused are told.
pub(crate) fn ops_answer(ops: &[StateOp]) -> Option<StoreAnswer>
    ensures { result ≡ ops_answer (ops_fault ops.now) }
{
    match StateRows::check(ops) {
        Ok(()) => None,
        Err(error) => Some(StoreAnswer::Refused {
            refusal: state_refusal(error),
        }),
    }
}

/// A value that was asked for.
pub(crate) fn value_answer(alloc: Global, value: Option<&[u8]>) -> Result<StoreAnswer, OutOfMemory>
    ensures answer { IfOk result (λ answer. answer ≡ value_answer (option_copied value.entry)) }
    ensures memory { OnErr result (HasValues (value_answer (option_copied value.entry))) }
{
    match value {
        None => Ok(StoreAnswer::NotThere),
        Some(bytes) => {
            let bytes = Vec::from_slice(alloc, bytes)?;
            Ok(StoreAnswer::Value {
                value: StateValue::from_vec(bytes),
            })
        }
    }
}

/// An equal text.
pub(crate) fn copied_text(alloc: Global, text: &ReminderText) -> Result<ReminderText, OutOfMemory>
    ensures { IfOk result (λ copy. copy ≡ text.now) }
{
    let text = String::from_str(alloc, text.as_str())?;
    Ok(ReminderText::from_string(text))
}

/// An equal payload.
pub(crate) fn copied_payload(
    alloc: Global,
    payload: &Option<ReminderPayload>,
) -> Result<Option<ReminderPayload>, OutOfMemory>
    ensures { IfOk result (λ copy. copy ≡ payload.now) }
{
    match payload {
        None => Ok(None),
        Some(payload) => {
            let bytes = Vec::from_slice(alloc, payload.as_slice())?;
            Ok(Some(ReminderPayload::from_vec(bytes)))
        }
    }
}

/// A reminder that was asked for.
pub(crate) fn reminder_answer(
    alloc: Global,
    reminder: Option<&Reminder>,
) -> Result<StoreAnswer, OutOfMemory>
    ensures answer { IfOk result (λ answer. answer ≡ reminder_answer (option_copied reminder.entry)) }
    ensures memory { OnErr result (HasValues (reminder_answer (option_copied reminder.entry))) }
{
    match reminder {
        None => Ok(StoreAnswer::NotThere),
        Some(reminder) => {
            let due = copied_text(alloc, &reminder.due)?;
            let period = copied_text(alloc, &reminder.period)?;
            let ttl = copied_text(alloc, &reminder.ttl)?;
            let payload = copied_payload(alloc, &reminder.payload)?;
            Ok(StoreAnswer::ReminderIs {
                due,
                period,
                ttl,
                payload,
            })
        }
    }
}

// What a firing that is refused is told.
fn fired_refusal(error: FiredError) -> StoreAnswer
    ensures { result ≡ fired_refusal error }
{
    match error {
        FiredError::NotThere => StoreAnswer::NotThere,
        FiredError::OtherMoment { next } => StoreAnswer::Refused {
            refusal: StoreRefusal::OtherMoment { next },
        },
    }
}

// Why a reminder can't fire for this moment, whenever that is.
fn fired_fault(
    reminders: &ReminderRows,
    actor: &ActorKey,
    name: &RecordName,
    moment: Moment,
) -> Option<FiredError>
    requires { AreTimely reminders.now.rows }
    ensures { (at : ℕ) → result ≡ result_err (fired_answer (row_at actor.now name.now reminders.now.rows) moment at) }
{
    match reminders.get(actor, name) {
        None => Some(FiredError::NotThere),
        Some(reminder) => match reminder.schedule.first {
            None => None,
            Some(next) => {
                if next == moment {
                    return None;
                }
                Some(FiredError::OtherMoment { next })
            }
        },
    }
}

/// What a firing for this moment is told, whenever that is, if it isn't accepted.
pub(crate) fn fired_told(
    reminders: &ReminderRows,
    actor: &ActorKey,
    name: &RecordName,
    moment: Moment,
) -> Option<StoreAnswer>
    requires { AreTimely reminders.now.rows }
    ensures { (at : ℕ) → result ≡ option_map fired_refusal (result_err (fired_answer (row_at actor.now name.now reminders.now.rows) moment at)) }
{
    match fired_fault(reminders, actor, name, moment) {
        None => None,
        Some(error) => Some(fired_refusal(error)),
    }
}
