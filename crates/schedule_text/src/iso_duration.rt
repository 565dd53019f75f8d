// Durations of ISO 8601, and their repetitions.
ghost use Rattle.std.specs.Prelude.{◌≡◌, true};
ghost use Rattle.schedule_text.specs.Reading.{Gives};
ghost use Rattle.schedule_text.specs.IsoDurations.{begins_with, has_field, field_number, behind_field, left_at, time_at, amounts_at, duration_at, ranged, iso_duration, count_at, counted, repeated, iso_period};

use crate::advance::Period;
use crate::error::ScheduleError;
use crate::go_duration::{MOST_NANOS, bad_duration};
use crate::numbers::{begins_with_digit, number_at};

/// The most months of a duration: 9,999 years.
const MOST_MONTHS: u64 = 119_988;

const WEEK: u64 = 604_800_000_000_000;

const DAY: u64 = 86_400_000_000_000;

const HOUR: u64 = 3_600_000_000_000;

const MINUTE: u64 = 60_000_000_000;

const SECOND: u64 = 1_000_000_000;

// A number with its letter, if the text begins with them; if it doesn't, the number is 0.
#[derive(Clone, Copy)]
struct Field<'a> {
    found: bool,
    number: u64,
    behind: &'a [u8],
}

/// Whether a text begins with that byte.
pub(crate) fn begins_with(byte: u8, text: &[u8]) -> bool
    ensures { result ≡ begins_with byte text.now }
{
    !text.is_empty() && text[0] == byte
}

// The number and the letter at the start of a text.
fn field_at(letter: u8, text: &[u8]) -> Field<'_>
    ensures found { result.found ≡ has_field letter text.now }
    ensures number { result.number ≡ field_number true letter text.now }
    ensures behind { result.behind.now ≡ behind_field letter text.now }
{
    let (number, behind) = number_at(text);
    if begins_with_digit(text) && begins_with(letter, behind) {
        return Field {
            found: true,
            number,
            behind: &behind[1..],
        };
    }
    Field {
        found: false,
        number: 0,
        behind: text,
    }
}

// How many bytes are left at the fault if no field fits; `last` says that no field can follow at all.
fn left_at(last: bool, text: &[u8]) -> usize
    ensures { result ≡ left_at last text.now }
{
    if last {
        return text.len();
    }
    number_at(text).1.len()
}

// Hours, minutes and seconds up to the text's end, in nanoseconds.
#[tactic(auto, unfolding(crate::specs::IsoDurations::time_at))]
fn time_at(text: &[u8]) -> Result<u64, usize>
    ensures { result ≡ time_at true text.now }
{
    let hours = field_at(b'H', text);
    let minutes = field_at(b'M', hours.behind);
    let seconds = field_at(b'S', minutes.behind);
    if !seconds.behind.is_empty() || !(hours.found || minutes.found || seconds.found) {
        return Err(left_at(seconds.found, seconds.behind));
    }
    let whole = hours.number.saturating_mul(HOUR);
    let whole = whole.saturating_add(minutes.number.saturating_mul(MINUTE));
    Ok(whole.saturating_add(seconds.number.saturating_mul(SECOND)))
}

// Months and nanoseconds up to the text's end.
#[tactic(auto, unfolding(crate::specs::IsoDurations::amounts_at))]
fn amounts_at(text: &[u8]) -> Result<(u64, u64), usize>
    ensures { result ≡ amounts_at true text.now }
{
    let years = field_at(b'Y', text);
    let months = field_at(b'M', years.behind);
    let weeks = field_at(b'W', months.behind);
    let days = field_at(b'D', weeks.behind);
    let all_months = years
        .number
        .saturating_mul(12)
        .saturating_add(months.number);
    let all_days = weeks.number.saturating_mul(WEEK);
    let all_days = all_days.saturating_add(days.number.saturating_mul(DAY));
    if begins_with(b'T', days.behind) {
        let time = time_at(&days.behind[1..])?;
        return Ok((all_months, all_days.saturating_add(time)));
    }
    if !days.behind.is_empty() || !(years.found || months.found || weeks.found || days.found) {
        return Err(left_at(days.found, days.behind));
    }
    Ok((all_months, all_days))
}

// A `P` and then the amounts.
fn duration_at(text: &[u8]) -> Result<(u64, u64), usize>
    ensures { result ≡ duration_at true text.now }
{
    if !begins_with(b'P', text) {
        return Err(text.len());
    }
    amounts_at(&text[1..])
}

// The amounts, if they are in range.
fn ranged(amounts: (u64, u64)) -> Result<Period, ScheduleError>
    ensures { result ≡ ranged amounts }
{
    let (months, nanos) = amounts;
    if months > MOST_MONTHS || nanos > MOST_NANOS {
        return Err(ScheduleError::OutOfRange);
    }
    Ok(Period {
        months: months as u32,
        nanos,
    })
}

/// The duration of ISO 8601 that the whole text is.
#[tactic(auto, using(crate::proofs::Sums::iso_duration_ok, crate::proofs::Sums::iso_duration_err))]
pub(crate) fn iso_duration(text: &[u8]) -> Result<Period, ScheduleError>
    ensures { result ≡ iso_duration text.now }
{
    match duration_at(text) {
        Err(left) => Err(bad_duration(text, left)),
        Ok(amounts) => ranged(amounts),
    }
}

// The number of some digits, which a `/` follows.
fn count_at(text: &[u8]) -> Result<(u64, &[u8]), usize>
    ensures { Gives (λ x. (x.0, x.1.now)) result (count_at true text.now) }
{
    let (count, behind) = number_at(text);
    if begins_with_digit(text) && begins_with(b'/', behind) {
        return Ok((count, &behind[1..]));
    }
    Err(behind.len())
}

// A count and a duration, both in range.
fn counted(count: u64, amounts: (u64, u64)) -> Result<(Period, Option<u32>), ScheduleError>
    ensures { result ≡ counted count amounts }
{
    if count > 4_294_967_295 {
        return Err(ScheduleError::OutOfRange);
    }
    let period = ranged(amounts)?;
    Ok((period, Some(count as u32)))
}

// A count, and the duration behind it.
#[tactic(auto, using(crate::proofs::Sums::repeated_ok, crate::proofs::Sums::repeated_err))]
fn repeated(text: &[u8], count: u64, behind: &[u8]) -> Result<(Period, Option<u32>), ScheduleError>
    ensures { result ≡ repeated text.now (count, behind.now) }
{
    if count == 0 {
        return Err(ScheduleError::ZeroRepeats);
    }
    match duration_at(behind) {
        Err(left) => Err(bad_duration(text, left)),
        Ok(amounts) => counted(count, amounts),
    }
}

/// A duration, and how often it is repeated if the text begins with an `R`.
#[tactic(auto, using(crate::proofs::Sums::iso_period_ok, crate::proofs::Sums::iso_period_err), unfolding(crate::specs::IsoDurations::iso_period))]
pub(crate) fn iso_period(text: &[u8]) -> Result<(Period, Option<u32>), ScheduleError>
    ensures { result ≡ iso_period text.now }
{
    if !begins_with(b'R', text) {
        let period = iso_duration(text)?;
        return Ok((period, None));
    }
    match count_at(&text[1..]) {
        Err(left) => Err(bad_duration(text, left)),
        Ok((count, behind)) => repeated(text, count, behind),
    }
}
