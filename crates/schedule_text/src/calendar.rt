// The calendar, which is that of the ported crate `jiff`.
ghost use Rattle.std.specs.Prelude.{◌≡◌, ◌≤◌, ◌<◌, pos, ◌-ℤ◌};
ghost use Rattle.jiff_core.specs.Calendar.{IsCivilDate, days_in_month};
ghost use Rattle.jiff_core.specs.DateTime.{civil_nanos};
ghost use Rattle.jiff_core.specs.Timestamp.{nanos_of_seconds};
ghost use Rattle.schedule_text.specs.Range.{end_of_time, moment_of, moment_from};
ghost use Rattle.schedule_text.specs.Calendar.{civil_date, months_on};

use crate::moment::Moment;
use jiff::civil::{Date, DateTime, date};
use jiff::tz::Offset;
use jiff::{Timestamp, ToSpan};

// Two moments are at most this many months apart.
const MOST_MONTHS: u32 = 119_988;

/// The timestamp of a moment, as `jiff` has it.
pub(crate) fn timestamp_of(moment: Moment) -> Timestamp
    ensures nanos { result.nanosecond ≡ pos moment }
    ensures range { moment < end_of_time }
{
    Timestamp::from_nanosecond(moment.nanos() as i128).unwrap()
}

/// The number of days of a month from 1 to 12.
pub(crate) fn days_in(year: u64, month: u64) -> u64
    requires year { year ≤ 9999 }
    requires month { (1 ≤ month) × (month ≤ 12) }
    ensures days { result ≡ days_in_month (pos year) month }
    ensures range { (28 ≤ result) × (result ≤ 31) }
{
    date(year as i16, month as i8, 1).days_in_month() as u64
}

/// The date with that year, month and day.
pub(crate) fn date_on(year: u64, month: u64, day: u64) -> Date
    requires { IsCivilDate (pos year) month day }
    ensures date { civil_date result ≡ record { year = year; month = month; day = day } }
    ensures year { result.year ≡ pos year }
{
    date(year as i16, month as i8, day as i8)
}

/// The moment at which a clock that is `offset` ahead of UTC shows this date and time, if it is a moment.
pub(crate) fn moment_shown(shown: DateTime, offset: Offset) -> Option<Moment>
    ensures { result ≡ moment_from (civil_nanos shown -ℤ nanos_of_seconds offset.seconds) }
{
    let instant = offset.to_timestamp(shown).ok()?;
    let nanos = u128::try_from(instant.as_nanosecond()).ok()?;
    Moment::from_nanos(nanos)
}

/// The moment some months later, at the same time of the day in UTC; a day that the month lacks becomes its last.
/// `None` if that is past the last moment.
pub(crate) fn months_on(moment: Moment, months: u32) -> Option<Moment>
    ensures { result ≡ moment_of (months_on moment months) }
{
    let shown = Offset::UTC.to_datetime(timestamp_of(moment));
    if months > MOST_MONTHS {
        return None;
    }
    let later = shown.checked_add((months as i64).months()).ok()?;
    moment_shown(later, Offset::UTC)
}
