// Operations on state, schedules and reminders that fit their fields.
ghost use Rattle.std.specs.Prelude.{◌≡◌, None, OnOk};
ghost use Rattle.wire_fields.specs.Fields.{MaybeFits, in_any_order, AllFit, number32};
ghost use Rattle.wire_fields.specs.Records.{blob, ttl, op, ops_list, moment, period, schedule, reminder};

use crate::fits::{Unfit, fits_bytes, fits_text};
use reminder_rows::{Reminder, ReminderPayload};
use schedule_text::{Moment, Period, Schedule};
use state_rows::StateOp;
use wire_fields::MOST_TTL_SECONDS;

#[tactic(auto, unfolding(wire_fields::specs::Records::ttl, wire_fields::specs::Fields::number32))]
fn fits_ttl(seconds: Option<u32>) -> Result<(), Unfit>
    ensures { OnOk result (MaybeFits ttl.Fits seconds) }
{
    match seconds {
        None => Ok(()),
        Some(n) => {
            if n == 0 || n > MOST_TTL_SECONDS {
                return Err(Unfit);
            }
            Ok(())
        }
    }
}

#[tactic(auto, unfolding(wire_fields::specs::Records::op))]
fn fits_op(one: &StateOp) -> Result<(), Unfit>
    ensures { OnOk result (op.Fits one.now) }
{
    match one {
        StateOp::Upsert { key, value, ttl } => {
            fits_text(key.as_str())?;
            fits_bytes(value.as_slice())?;
            fits_ttl(*ttl)
        }
        StateOp::Delete { key } => fits_text(key.as_str()),
    }
}

fn fits_each(ops: &[StateOp]) -> Result<(), Unfit>
    ensures { OnOk result (AllFit (in_any_order op) None ops.now) }
{
    for one in ops {
        fits_op(one)?;
    }
    Ok(())
}

/// The operations of a transaction.
#[tactic(auto, unfolding(wire_fields::specs::Records::ops_list, wire_fields::specs::Fields::number16))]
pub(crate) fn fits_ops(ops: &[StateOp]) -> Result<(), Unfit>
    ensures { OnOk result (ops_list.Fits ops.now) }
{
    if ops.len() > 65_535 {
        return Err(Unfit);
    }
    fits_each(ops)
}

/// Each moment fits.
pub(crate) fn fits_moment(one: Moment)
    ensures { moment.Fits one }
{
    let _nanos = one.nanos();
}

fn fits_moments(one: Option<Moment>)
    ensures { MaybeFits moment.Fits one }
{
    match one {
        None => {}
        Some(moment) => fits_moment(moment),
    }
}

#[tactic(auto, unfolding(wire_fields::specs::Records::period, wire_fields::specs::Fields::number32, wire_fields::specs::Fields::number64))]
fn fits_period(one: Option<Period>)
    ensures { MaybeFits period.Fits one }
{
    match one {
        None => {}
        Some(period) => {
            let _months = period.months;
            let _nanos = period.nanos;
        }
    }
}

#[tactic(auto, unfolding(wire_fields::specs::Fields::number32))]
fn fits_left(left: Option<u32>)
    ensures { MaybeFits number32.Fits left }
{
    match left {
        None => {}
        Some(_left) => {}
    }
}

// Each schedule fits.
#[tactic(auto, unfolding(wire_fields::specs::Records::schedule))]
fn fits_schedule(one: &Schedule)
    ensures { schedule.Fits one.now }
{
    fits_moments(one.first);
    fits_period(one.period);
    fits_left(one.left);
    fits_moments(one.end);
}

fn fits_payload(payload: &Option<ReminderPayload>) -> Result<(), Unfit>
    ensures { OnOk result (MaybeFits blob.Fits payload.now) }
{
    match payload {
        None => Ok(()),
        Some(payload) => fits_bytes(payload.as_slice()),
    }
}

/// What is registered as a reminder.
#[tactic(auto, unfolding(wire_fields::specs::Records::reminder))]
pub(crate) fn fits_reminder(one: &Reminder) -> Result<(), Unfit>
    ensures { OnOk result (reminder.Fits one.now) }
{
    fits_schedule(&one.schedule);
    fits_text(one.due.as_str())?;
    fits_text(one.period.as_str())?;
    fits_text(one.ttl.as_str())?;
    fits_payload(&one.payload)
}
