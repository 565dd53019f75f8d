// Reads moments.
ghost use Rattle.std.specs.Prelude.{◌≡◌, ◌≤◌, ◌<◌, ◌≤ℤ◌, ◌+◌, ◌*◌, pos, IfOk};
ghost use Rattle.jiff_core.specs.Sign.{signed};
ghost use Rattle.schedule_text.specs.Calendar.{civil_date};
ghost use Rattle.schedule_text.specs.Numbers.{billionth};
ghost use Rattle.schedule_text.specs.Reading.{Gives};
ghost use Rattle.schedule_text.specs.Moments.{two_at, either_at, year_at, date_at, minutes_at, clock_at, subsecond_at, ending, offset_at, zone_at, instant_of, instant_at, read_moment};

use crate::calendar::{date_on, days_in, moment_shown};
use crate::error::ScheduleError;
use crate::iso_duration::begins_with;
use crate::moment::Moment;
use crate::numbers::{begins_with_digit, billionths_at};
use jiff::civil::{Date, DateTime, time};
use jiff::tz::Offset;

// A number and what is behind it, or how many bytes are left at the fault.
type Number<'a> = Result<(u64, &'a [u8]), usize>;

// A number of two digits from `low` to `high`.
fn two_at(low: u64, high: u64, text: &[u8]) -> Number<'_>
    ensures reading { Gives (λ x. (x.0, x.1.now)) result (two_at low high text.now) }
    ensures range { IfOk result (λ x. (low ≤ x.0) × (x.0 ≤ high)) }
{
    if text.is_empty() {
        return Err(0);
    }
    let tens = text[0];
    if !tens.is_ascii_digit() || (tens - b'0') as u64 > high / 10 {
        return Err(text.len());
    }
    let behind = &text[1..];
    if behind.is_empty() {
        return Err(0);
    }
    let ones = behind[0];
    if !ones.is_ascii_digit() {
        return Err(behind.len());
    }
    let number = (tens - b'0') as u64 * 10 + (ones - b'0') as u64;
    if number < low || number > high {
        return Err(text.len());
    }
    Ok((number, &behind[1..]))
}

// One of two bytes.
fn either_at(byte: u8, other: u8, text: &[u8]) -> Result<&[u8], usize>
    ensures { Gives (λ x. x.now) result (either_at byte other text.now) }
{
    if begins_with(byte, text) || begins_with(other, text) {
        return Ok(&text[1..]);
    }
    Err(text.len())
}

// A year of four digits.
#[tactic(auto, unfolding(crate::specs::Moments::year_at))]
fn year_at(text: &[u8]) -> Number<'_>
    ensures reading { Gives (λ x. (x.0, x.1.now)) result (year_at text.now) }
    ensures range { IfOk result (λ x. x.0 ≤ 9999) }
{
    let (century, behind) = two_at(0, 99, text)?;
    let (year, behind) = two_at(0, 99, behind)?;
    Ok((century * 100 + year, behind))
}

// A date that the calendar has.
#[tactic(auto, unfolding(crate::specs::Moments::date_at))]
fn date_at(text: &[u8]) -> Result<(Date, &[u8]), usize>
    ensures reading { Gives (λ x. (civil_date x.0, x.1.now)) result (date_at text.now) }
    ensures year { IfOk result (λ x. pos 0 ≤ℤ x.0.year) }
{
    let (year, behind) = year_at(text)?;
    let behind = either_at(b'-', b'-', behind)?;
    let (month, behind) = two_at(1, 12, behind)?;
    let behind = either_at(b'-', b'-', behind)?;
    let (day, behind) = two_at(1, days_in(year, month), behind)?;
    Ok((date_on(year, month, day), behind))
}

// An hour of the day and its minute.
type Minutes = (u64, u64);

// Hours and minutes.
#[tactic(auto, unfolding(crate::specs::Moments::minutes_at))]
fn minutes_at(text: &[u8]) -> Result<(Minutes, &[u8]), usize>
    ensures reading { Gives (λ x. (x.0.0 * 3600 + x.0.1 * 60, x.1.now)) result (minutes_at text.now) }
    ensures hour { IfOk result (λ x. x.0.0 ≤ 23) }
    ensures minute { IfOk result (λ x. x.0.1 ≤ 59) }
{
    let (hour, behind) = two_at(0, 23, text)?;
    let behind = either_at(b':', b':', behind)?;
    let (minute, behind) = two_at(0, 59, behind)?;
    Ok(((hour, minute), behind))
}

// The same with a second.
type Clock = (Minutes, u64);

// A time of the day.
#[tactic(auto, unfolding(crate::specs::Moments::clock_at))]
fn clock_at(text: &[u8]) -> Result<(Clock, &[u8]), usize>
    ensures reading { Gives (λ x. (x.0.0.0 * 3600 + x.0.0.1 * 60 + x.0.1, x.1.now)) result (clock_at text.now) }
    ensures hour { IfOk result (λ x. x.0.0.0 ≤ 23) }
    ensures minute { IfOk result (λ x. x.0.0.1 ≤ 59) }
    ensures second { IfOk result (λ x. x.0.1 ≤ 59) }
{
    let (minutes, behind) = minutes_at(text)?;
    let behind = either_at(b':', b':', behind)?;
    let (second, behind) = two_at(0, 59, behind)?;
    Ok(((minutes, second), behind))
}

// The fraction of a second in nanoseconds.
fn subsecond_at(text: &[u8]) -> Number<'_>
    ensures reading { Gives (λ x. (x.0, x.1.now)) result (subsecond_at text.now) }
    ensures range { IfOk result (λ x. x.0 < billionth) }
{
    if !begins_with(b'.', text) {
        return Ok((0, text));
    }
    let behind = &text[1..];
    if !begins_with_digit(behind) {
        return Err(behind.len());
    }
    Ok(billionths_at(behind))
}

// An offset: whether it is behind UTC, and its seconds.
type Zone = (bool, u64);

// An offset up to the text's end.
#[tactic(auto, unfolding(crate::specs::Moments::offset_at))]
fn offset_at(is_behind: bool, text: &[u8]) -> Result<Zone, usize>
    ensures reading { result ≡ offset_at is_behind text.now }
    ensures range { IfOk result (λ x. x.1 ≤ 86_340) }
{
    let ((hours, minutes), behind) = minutes_at(text)?;
    if !behind.is_empty() {
        return Err(behind.len());
    }
    Ok((is_behind, hours * 3600 + minutes * 60))
}

// `Z`, or a sign and an offset.
fn zone_at(text: &[u8]) -> Result<Zone, usize>
    ensures reading { result ≡ zone_at text.now }
    ensures range { IfOk result (λ x. x.1 ≤ 86_340) }
{
    if begins_with(b'Z', text) || begins_with(b'z', text) {
        if text.len() > 1 {
            return Err(text.len() - 1);
        }
        return Ok((false, 0));
    }
    if begins_with(b'+', text) {
        return offset_at(false, &text[1..]);
    }
    if begins_with(b'-', text) {
        return offset_at(true, &text[1..]);
    }
    Err(text.len())
}

// How far a clock is from UTC.
fn offset_of(zone: Zone) -> Offset
    requires { zone.1 ≤ 86_340 }
    ensures { result.seconds ≡ signed zone.0 zone.1 }
{
    let (is_behind, seconds) = zone;
    let ahead = seconds as i32;
    Offset::from_seconds(if is_behind { -ahead } else { ahead }).unwrap()
}

// The date and time that a clock shows, and how far it is from UTC.
type Shown = (DateTime, Offset);

// The date, time and offset of a text.
#[tactic(auto, unfolding(crate::specs::Moments::instant_at))]
fn shown_at(text: &[u8]) -> Result<Shown, usize>
    ensures { Gives instant_of result (instant_at text.now) }
{
    let (date, behind) = match date_at(text) {
        Ok(read) => read,
        Err(left) => return Err(left),
    };
    let behind = either_at(b'T', b't', behind)?;
    let (((hour, minute), second), behind) = clock_at(behind)?;
    let (nanos, behind) = subsecond_at(behind)?;
    let zone = zone_at(behind)?;
    let clock = time(hour as i8, minute as i8, second as i8, nanos as i32);
    Ok((DateTime::from_parts(date, clock), offset_of(zone)))
}

/// Reads a moment as RFC 3339 writes it: `YYYY-MM-DDThh:mm:ss`, a fraction of at most nine digits, and `Z` or an
/// offset up to 23:59. A leap second is refused; a moment before 1970 or from 9999 on is `OutOfRange`.
#[tactic(auto, unfolding(crate::specs::Moments::read_moment))]
pub fn read_moment(text: &str) -> Result<Moment, ScheduleError>
    ensures { result ≡ read_moment text.now }
{
    moment_in(text.as_bytes())
}

/// The same for bytes.
#[tactic(auto, unfolding(crate::specs::Moments::read_moment))]
pub(crate) fn moment_in(text: &[u8]) -> Result<Moment, ScheduleError>
    ensures { result ≡ read_moment text.now }
{
    match shown_at(text) {
        Err(left) => Err(ScheduleError::BadMoment {
            at: text.len().saturating_sub(left) as u64,
        }),
        Ok(read) => moment_shown(read.0, read.1).ok_or(ScheduleError::OutOfRange),
    }
}
