// What bodies say.
ghost use Rattle.std.specs.Prelude.{◌≡◌, ◌<◌};
ghost use Rattle.api_bodies.specs.Records.{reminder_reading, timer_reading};
ghost use Rattle.api_bodies.specs.Transactions.{ops_reading};
ghost use Rattle.actors_api.specs.Reading.{Gives, of_body};

use crate::fault::{Fault, body_fault};
use api_bodies::{read_ops, read_reminder, read_timer};
use frame_wire::StateOps;
use reminder_rows::Reminder;
use std::alloc::Global;
use timer_book::Timer;

/// The operations of a transaction.
#[tactic(auto, using(crate::proofs::Bodies::body_fails))]
pub(crate) fn ops_of(alloc: Global, body: &[u8]) -> Result<StateOps, Fault>
    ensures { Gives (λ ops. ops) result (of_body (ops_reading body.now)) }
{
    match read_ops(alloc, body) {
        Ok(ops) => Ok(ops),
        Err(error) => Err(body_fault(error)),
    }
}

/// The reminder of a body.
#[tactic(auto, using(crate::proofs::Bodies::body_fails))]
pub(crate) fn reminder_of(alloc: Global, body: &[u8], now: u64) -> Result<Reminder, Fault>
    requires { now < 253370764800000 }
    ensures { Gives (λ reminder. reminder) result (of_body (reminder_reading body.now now)) }
{
    match read_reminder(alloc, body, now) {
        Ok(reminder) => Ok(reminder),
        Err(error) => Err(body_fault(error)),
    }
}

/// The timer of a body.
#[tactic(auto, using(crate::proofs::Bodies::body_fails))]
pub(crate) fn timer_of(alloc: Global, body: &[u8], now: u64) -> Result<Timer, Fault>
    requires { now < 253370764800000 }
    ensures { Gives (λ timer. timer) result (of_body (timer_reading body.now now)) }
{
    match read_timer(alloc, body, now) {
        Ok(timer) => Ok(timer),
        Err(error) => Err(body_fault(error)),
    }
}
