// Reads schedules.
ghost use Rattle.std.specs.Prelude.{◌≡◌};
ghost use Rattle.schedule_text.specs.Schedules.{moment_from_now, moment_or_duration, period_reading, one_or_absent, first_before, due_or_now, read_schedule};

use crate::advance::{Period, Schedule, add_period};
use crate::error::ScheduleError;
use crate::go_duration::go_nanos;
use crate::iso_duration::{begins_with, iso_duration, iso_period};
use crate::moment::Moment;
use crate::moment_reading::moment_in;

// The moment a duration after now.
fn moment_from_now(period: &Period, now: Moment) -> Result<Option<Moment>, ScheduleError>
    ensures { result ≡ moment_from_now now period.now }
{
    match add_period(now, period) {
        None => Err(ScheduleError::OutOfRange),
        Some(moment) => Ok(Some(moment)),
    }
}

// A moment; or a duration from now on, as the moment at its end; or nothing.
fn moment_or_duration(text: &[u8], now: Moment) -> Result<Option<Moment>, ScheduleError>
    ensures { result ≡ moment_or_duration text.now now }
{
    if text.is_empty() {
        return Ok(None);
    }
    if begins_with(b'P', text) {
        let period = iso_duration(text)?;
        return moment_from_now(&period, now);
    }
    if text.len() > 4 && text[4] == b'-' {
        let moment = moment_in(text)?;
        return Ok(Some(moment));
    }
    let nanos = go_nanos(text)?;
    moment_from_now(&Period { months: 0, nanos }, now)
}

// A period with its count. A period of zero length is absent, and so is its count.
fn one_or_absent(period: Period, left: Option<u32>) -> (Option<Period>, Option<u32>)
    ensures { result ≡ one_or_absent (period, left) }
{
    if period.months == 0 && period.nanos == 0 {
        (None, None)
    } else {
        (Some(period), left)
    }
}

// A period and how many firings it allows.
fn period_reading(text: &[u8]) -> Result<(Option<Period>, Option<u32>), ScheduleError>
    ensures { result ≡ period_reading text.now }
{
    if text.is_empty() {
        return Ok((None, None));
    }
    if begins_with(b'R', text) || begins_with(b'P', text) {
        let (period, left) = iso_period(text)?;
        return Ok(one_or_absent(period, left));
    }
    let nanos = go_nanos(text)?;
    Ok(one_or_absent(Period { months: 0, nanos }, None))
}

// The first moment, if it is before the end.
fn first_before(first: Moment, end: &Option<Moment>) -> Option<Moment>
    ensures { result ≡ first_before first end.now }
{
    match end {
        None => Some(first),
        Some(end) => {
            if first.nanos() < end.nanos() {
                Some(first)
            } else {
                None
            }
        }
    }
}

// The first moment: the due one, or now.
fn due_or_now(due: Option<Moment>, now: Moment) -> Moment
    ensures { result ≡ due_or_now now due }
{
    match due {
        None => now,
        Some(due) => due,
    }
}

/// Reads a schedule from Dapr's texts at `now`; an empty text counts as absent. `due` and `ttl` are a moment of
/// RFC 3339, or a duration from now on as Go or ISO 8601 writes it. `period` is such a duration; one of ISO 8601
/// may have its repetitions before it, as in `R5/PT1M`. The texts are read in this order, each with its sum, and
/// the first fault is answered, with its place in its own text.
#[tactic(auto, unfolding(crate::specs::Schedules::read_schedule))]
pub fn read_schedule(
    due: &str,
    period: &str,
    ttl: &str,
    now: Moment,
) -> Result<Schedule, ScheduleError>
    ensures { result ≡ read_schedule due.now period.now ttl.now now }
{
    let due = moment_or_duration(due.as_bytes(), now)?;
    let (period, left) = period_reading(period.as_bytes())?;
    let end = moment_or_duration(ttl.as_bytes(), now)?;
    let first = first_before(due_or_now(due, now), &end);
    Ok(Schedule {
        first,
        period,
        left,
        end,
    })
}
