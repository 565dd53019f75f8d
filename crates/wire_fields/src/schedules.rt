// Moments, schedules, and what follows a firing, read from the start of some bytes and appended to others.
ghost use Rattle.std.specs.Prelude.{◌≡◌, ◌++◌, OnOk};
ghost use Rattle.schedule_text.specs.Range.{moment_of};
ghost use Rattle.schedule_text.specs.declared.advance.Next.TheVariants.{At};
ghost use Rattle.wire_fields.specs.Fields.{number32, number64, both, as_one, joined, maybe, row};
ghost use Rattle.wire_fields.specs.Gives.{Gives};
ghost use Rattle.wire_fields.specs.Records.{moment, moment as moment_field, period, schedule, next};

use crate::fault::Fault;
use crate::numbers::{put_tag, put_u32, put_u64, u32_at, u64_at};
use lists_and_limits::OutOfMemory;
use schedule_text::{Moment, Next, Period, Schedule};

// Numbers from this one on need the high half of a number of 16 bytes.
const HALF: u128 = 18_446_744_073_709_551_616;

// The two halves of a number of 16 bytes.
fn pair_at(rest: &mut &[u8]) -> Result<(u64, u64), Fault>
    ensures { Gives (λ x. ((x.0, x.1), rest.new.now)) result ((both number64 number64).at rest.old.now) }
{
    let high = u64_at(rest)?;
    let low = u64_at(rest)?;
    Ok((high, low))
}

// The same as one field.
fn halves_at(rest: &mut &[u8]) -> Result<(u64, u64), Fault>
    ensures { Gives (λ x. ((x.0, x.1), rest.new.now)) result ((as_one (both number64 number64)).at rest.old.now) }
{
    let left = rest.len();
    match pair_at(rest) {
        Ok(pair) => Ok(pair),
        Err(Fault::Memory) => Err(Fault::Memory),
        Err(Fault::Field { .. }) => Err(Fault::Field { left }),
    }
}

// The moment of two halves, if it is one.
fn moment_from(high: u64, low: u64) -> Option<Moment>
    ensures { result ≡ moment_of (joined (high, low)) }
{
    Moment::from_nanos(high as u128 * HALF + low as u128)
}

/// Reads a moment: nanoseconds since 1970, a number of 16 bytes.
#[tactic(auto, unfolding(crate::specs::Records::moment, crate::specs::Fields::number128))]
pub fn moment_at(rest: &mut &[u8]) -> Result<Moment, Fault>
    ensures { Gives (λ x. (x, rest.new.now)) result (moment.at rest.old.now) }
{
    let left = rest.len();
    let (high, low) = halves_at(rest)?;
    match moment_from(high, low) {
        Some(moment) => Ok(moment),
        None => Err(Fault::Field { left }),
    }
}

/// Reads how many firings are left, if that is bounded.
pub fn left_at(rest: &mut &[u8]) -> Result<Option<u32>, Fault>
    ensures { Gives (λ x. (x, rest.new.now)) result ((maybe number32).at rest.old.now) }
{
    match *rest {
        [0, others @ ..] => {
            *rest = others;
            Ok(None)
        }
        [1, others @ ..] => {
            *rest = others;
            let left = u32_at(rest)?;
            Ok(Some(left))
        }
        _ => Err(Fault::Field { left: rest.len() }),
    }
}

fn maybe_moment_at(rest: &mut &[u8]) -> Result<Option<Moment>, Fault>
    ensures { Gives (λ x. (x, rest.new.now)) result ((maybe moment).at rest.old.now) }
{
    match *rest {
        [0, others @ ..] => {
            *rest = others;
            Ok(None)
        }
        [1, others @ ..] => {
            *rest = others;
            let moment = moment_at(rest)?;
            Ok(Some(moment))
        }
        _ => Err(Fault::Field { left: rest.len() }),
    }
}

#[tactic(auto, unfolding(crate::specs::Records::period))]
fn period_at(rest: &mut &[u8]) -> Result<Period, Fault>
    ensures { Gives (λ x. (x, rest.new.now)) result (period.at rest.old.now) }
{
    let months = u32_at(rest)?;
    let nanos = u64_at(rest)?;
    Ok(Period { months, nanos })
}

fn maybe_period_at(rest: &mut &[u8]) -> Result<Option<Period>, Fault>
    ensures { Gives (λ x. (x, rest.new.now)) result ((maybe period).at rest.old.now) }
{
    match *rest {
        [0, others @ ..] => {
            *rest = others;
            Ok(None)
        }
        [1, others @ ..] => {
            *rest = others;
            let period = period_at(rest)?;
            Ok(Some(period))
        }
        _ => Err(Fault::Field { left: rest.len() }),
    }
}

/// Reads a schedule: the first moment, the period, the firings left, the end; each may be missing.
#[tactic(auto, unfolding(crate::specs::Records::schedule))]
pub fn schedule_at(rest: &mut &[u8]) -> Result<Schedule, Fault>
    ensures { Gives (λ x. (x, rest.new.now)) result (schedule.at rest.old.now) }
{
    let first = maybe_moment_at(rest)?;
    let period = maybe_period_at(rest)?;
    let left = left_at(rest)?;
    let end = maybe_moment_at(rest)?;
    Ok(Schedule {
        first,
        period,
        left,
        end,
    })
}

// A moment, and the firings left from it on.
fn next_moment_at(rest: &mut &[u8]) -> Result<Next, Fault>
    ensures { Gives (λ x. (x, rest.new.now)) result (row (both moment (maybe number32)) (λ p. At p.0 p.1) rest.old.now) }
{
    let moment = moment_at(rest)?;
    let left = left_at(rest)?;
    Ok(Next::At { moment, left })
}

/// Reads what follows a firing: a byte of 0 if nothing does, 1 and the moment and the firings left, or 2 if it would be
/// past the last moment.
#[tactic(auto, unfolding(crate::specs::Records::next))]
pub fn next_at(rest: &mut &[u8]) -> Result<Next, Fault>
    ensures { Gives (λ x. (x, rest.new.now)) result (next.at rest.old.now) }
{
    match *rest {
        [0, others @ ..] => {
            *rest = others;
            Ok(Next::Done)
        }
        [1, others @ ..] => {
            *rest = others;
            next_moment_at(rest)
        }
        [2, others @ ..] => {
            *rest = others;
            Ok(Next::OutOfRange)
        }
        _ => Err(Fault::Field { left: rest.len() }),
    }
}

/// Appends a moment.
#[tactic(auto, unfolding(crate::specs::Records::moment, crate::specs::Fields::number128))]
pub fn put_moment(out: &mut Vec<u8>, one: Moment) -> Result<(), OutOfMemory>
    ensures { OnOk result (out.new.items ≡ out.old.items ++ moment.spell one) }
{
    let nanos = one.nanos();
    let high = (nanos / HALF) as u64;
    let low = (nanos % HALF) as u64;
    put_u64(out, high)?;
    put_u64(out, low)
}

/// Appends how many firings are left, if that is bounded.
pub fn put_left(out: &mut Vec<u8>, left: Option<u32>) -> Result<(), OutOfMemory>
    ensures { OnOk result (out.new.items ≡ out.old.items ++ (maybe number32).spell left) }
{
    match left {
        None => put_tag(out, 0),
        Some(left) => {
            put_tag(out, 1)?;
            put_u32(out, left)
        }
    }
}

fn put_maybe_moment(out: &mut Vec<u8>, one: Option<Moment>) -> Result<(), OutOfMemory>
    ensures { OnOk result (out.new.items ≡ out.old.items ++ (maybe moment).spell one) }
{
    match one {
        None => put_tag(out, 0),
        Some(one) => {
            put_tag(out, 1)?;
            put_moment(out, one)
        }
    }
}

#[tactic(auto, unfolding(crate::specs::Records::period))]
fn put_period(out: &mut Vec<u8>, one: Period) -> Result<(), OutOfMemory>
    ensures { OnOk result (out.new.items ≡ out.old.items ++ period.spell one) }
{
    put_u32(out, one.months)?;
    put_u64(out, one.nanos)
}

fn put_maybe_period(out: &mut Vec<u8>, one: Option<Period>) -> Result<(), OutOfMemory>
    ensures { OnOk result (out.new.items ≡ out.old.items ++ (maybe period).spell one) }
{
    match one {
        None => put_tag(out, 0),
        Some(one) => {
            put_tag(out, 1)?;
            put_period(out, one)
        }
    }
}

/// Appends a schedule.
#[tactic(auto, unfolding(crate::specs::Records::schedule))]
pub fn put_schedule(out: &mut Vec<u8>, one: &Schedule) -> Result<(), OutOfMemory>
    ensures { OnOk result (out.new.items ≡ out.old.items ++ schedule.spell one.now) }
{
    put_maybe_moment(out, one.first)?;
    put_maybe_period(out, one.period)?;
    put_left(out, one.left)?;
    put_maybe_moment(out, one.end)
}

// Appends a moment, and the firings left from it on.
fn put_next_moment(out: &mut Vec<u8>, moment: Moment, left: Option<u32>) -> Result<(), OutOfMemory>
    ensures { OnOk result (out.new.items ≡ out.old.items ++ (both moment_field (maybe number32)).spell (moment, left)) }
{
    put_moment(out, moment)?;
    put_left(out, left)
}

/// Appends what follows a firing.
#[tactic(auto, unfolding(crate::specs::Records::next))]
pub fn put_next(out: &mut Vec<u8>, one: Next) -> Result<(), OutOfMemory>
    ensures { OnOk result (out.new.items ≡ out.old.items ++ next.spell one) }
{
    match one {
        Next::Done => put_tag(out, 0),
        Next::At { moment, left } => {
            put_tag(out, 1)?;
            put_next_moment(out, moment, left)
        }
        Next::OutOfRange => put_tag(out, 2),
    }
}
