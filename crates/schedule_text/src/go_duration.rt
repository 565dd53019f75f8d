// Durations as Go writes them.
ghost use Rattle.std.specs.Prelude.{◌≡◌, ◌≤◌, ◌-◌, ◌*◌, ◌/◌, true, IfOk, length};
ghost use Rattle.schedule_text.specs.declared.error.ScheduleError.TheVariants.{BadDuration};
ghost use Rattle.schedule_text.specs.Numbers.{billionth};
ghost use Rattle.schedule_text.specs.Reading.{Gives};
ghost use Rattle.schedule_text.specs.GoDurations.{unit_with_s, unit_behind_m, unit_behind_mu, unit_at, behind_first, fraction_at, literal_at, term_nanos, term_at, terms_from, sum_at, behind_sign, is_negative, placed, signed_sum, go_nanos};

use crate::error::ScheduleError;
use crate::numbers::{begins_with_digit, billionths_at, number_at};

/// The most nanoseconds of a duration, 2^63 - 1.
pub(crate) const MOST_NANOS: u64 = 9_223_372_036_854_775_807;

const HOUR: u64 = 3_600_000_000_000;

const MINUTE: u64 = 60_000_000_000;

const SECOND: u64 = 1_000_000_000;

const MILLISECOND: u64 = 1_000_000;

const MICROSECOND: u64 = 1_000;

// A unit in nanoseconds, and what is behind it; or how many bytes are left at the fault.
type Unit<'a> = Result<(u64, &'a [u8]), usize>;

// An `s`, which ends a unit of that many nanoseconds.
fn unit_with_s(nanos: u64, text: &[u8]) -> Unit<'_>
    requires { nanos ≤ 3600000000000 }
    ensures reading { Gives (λ x. (x.0, x.1.now)) result (unit_with_s nanos text.now) }
    ensures bound { IfOk result (λ x. x.0 ≤ 3600000000000) }
{
    if text.is_empty() || text[0] != b's' {
        return Err(text.len());
    }
    Ok((nanos, &text[1..]))
}

// Minutes, or milliseconds if an `s` follows.
fn unit_behind_m(text: &[u8]) -> Unit<'_>
    ensures reading { Gives (λ x. (x.0, x.1.now)) result (unit_behind_m text.now) }
    ensures bound { IfOk result (λ x. x.0 ≤ 3600000000000) }
{
    if text.is_empty() || text[0] != b's' {
        return Ok((MINUTE, text));
    }
    Ok((MILLISECOND, &text[1..]))
}

// The second byte of a letter mu, and then an `s`.
fn unit_behind_mu(second: u8, text: &[u8]) -> Unit<'_>
    ensures reading { Gives (λ x. (x.0, x.1.now)) result (unit_behind_mu second text.now) }
    ensures bound { IfOk result (λ x. x.0 ≤ 3600000000000) }
{
    if text.is_empty() || text[0] != second {
        return Err(text.len());
    }
    unit_with_s(MICROSECOND, &text[1..])
}

// A unit.
fn unit_at(text: &[u8]) -> Unit<'_>
    ensures reading { Gives (λ x. (x.0, x.1.now)) result (unit_at text.now) }
    ensures bound { IfOk result (λ x. x.0 ≤ 3600000000000) }
{
    if text.is_empty() {
        return Err(0);
    }
    let letter = text[0];
    let behind = &text[1..];
    if letter == b'h' {
        return Ok((HOUR, behind));
    }
    if letter == b'm' {
        return unit_behind_m(behind);
    }
    if letter == b's' {
        return Ok((SECOND, behind));
    }
    if letter == b'n' {
        return unit_with_s(1, behind);
    }
    if letter == b'u' {
        return unit_with_s(MICROSECOND, behind);
    }
    if letter == 0xc2 {
        return unit_behind_mu(0xb5, behind);
    }
    if letter == 0xce {
        return unit_behind_mu(0xbc, behind);
    }
    Err(text.len())
}

// The whole part of a literal, and its billionths.
type Literal = (u64, u64);

// The digits behind a point; there is at least one, unless there are digits before the point.
fn fraction_at(before: bool, whole: u64, text: &[u8]) -> Result<(Literal, &[u8]), usize>
    ensures reading { Gives (λ x. (x.0, x.1.now)) result (fraction_at before whole text.now) }
    ensures bound { IfOk result (λ x. x.0.1 ≤ billionth) }
{
    if !before && !begins_with_digit(text) {
        return Err(text.len());
    }
    let (billionths, behind) = billionths_at(text);
    Ok(((whole, billionths), behind))
}

// A literal.
fn literal_at(text: &[u8]) -> Result<(Literal, &[u8]), usize>
    ensures reading { Gives (λ x. (x.0, x.1.now)) result (literal_at true text.now) }
    ensures bound { IfOk result (λ x. x.0.1 ≤ billionth) }
{
    let before = begins_with_digit(text);
    let (whole, behind) = number_at(text);
    if !behind.is_empty() && behind[0] == b'.' {
        return fraction_at(before, whole, &behind[1..]);
    }
    if !before {
        return Err(text.len());
    }
    Ok(((whole, 0), behind))
}

// The nanoseconds of the billionths of a unit, cut down.
fn part_of(billionths: u64, unit: u64) -> u64
    requires billionths { billionths ≤ billionth }
    requires unit { unit ≤ 3600000000000 }
    ensures { result ≡ billionths * unit / billionth }
{
    (billionths as u128 * unit as u128 / 1_000_000_000) as u64
}

// A literal times its unit, cut down to whole nanoseconds.
fn term_nanos(literal: Literal, unit: u64) -> u64
    requires billionths { literal.1 ≤ billionth }
    requires unit { unit ≤ 3600000000000 }
    ensures { result ≡ term_nanos true literal unit }
{
    let (whole, billionths) = literal;
    let part = part_of(billionths, unit);
    whole.saturating_mul(unit).saturating_add(part)
}

// A literal and its unit.
#[tactic(auto, unfolding(crate::specs::GoDurations::term_at))]
fn term_at(text: &[u8]) -> Result<(u64, &[u8]), usize>
    ensures { Gives (λ x. (x.0, x.1.now)) result (term_at true text.now) }
{
    let (literal, behind) = literal_at(text)?;
    let (unit, behind) = unit_at(behind)?;
    Ok((term_nanos(literal, unit), behind))
}

// The sum of the terms up to the text's end. A term has at least one byte.
#[tactic(auto, unfolding(crate::specs::GoDurations::terms_from))]
fn terms_at(text: &[u8]) -> Result<u64, usize>
    ensures { result ≡ terms_from true (length text.now) 0 text.now }
{
    let mut sum: u64 = 0;
    let mut rest = text;
    let mut most = text.len();
    while !rest.is_empty() {
        if most == 0 {
            return Err(rest.len());
        }
        let (nanos, behind) = term_at(rest)?;
        sum = sum.saturating_add(nanos);
        rest = behind;
        most -= 1;
    }
    Ok(sum)
}

// `0` alone, or at least one term.
fn sum_at(text: &[u8]) -> Result<u64, usize>
    ensures { result ≡ sum_at true text.now }
{
    if text.len() == 1 && text[0] == b'0' {
        return Ok(0);
    }
    if text.is_empty() {
        return Err(0);
    }
    terms_at(text)
}

// What is behind the sign, if there is one.
fn behind_sign(text: &[u8]) -> &[u8]
    ensures { result.now ≡ behind_sign text.now }
{
    if !text.is_empty() && (text[0] == b'+' || text[0] == b'-') {
        &text[1..]
    } else {
        text
    }
}

// Whether a text begins with `-`.
fn is_negative(text: &[u8]) -> bool
    ensures { result ≡ is_negative text.now }
{
    !text.is_empty() && text[0] == b'-'
}

/// The fault at the byte of the text that has `left` bytes from there to its end.
pub(crate) fn bad_duration(text: &[u8], left: usize) -> ScheduleError
    ensures { result ≡ BadDuration (length text.now - left) }
{
    ScheduleError::BadDuration {
        at: text.len().saturating_sub(left) as u64,
    }
}

// The sum, if its sign and its range are allowed.
fn signed_sum(negative: bool, sum: u64) -> Result<u64, ScheduleError>
    ensures { result ≡ signed_sum negative sum }
{
    if negative && sum != 0 {
        return Err(ScheduleError::Negative);
    }
    if sum > MOST_NANOS {
        return Err(ScheduleError::OutOfRange);
    }
    Ok(sum)
}

/// Reads a duration as Go writes it, in nanoseconds; takes no memory.
#[tactic(auto, using(crate::proofs::Sums::go_nanos_ok, crate::proofs::Sums::go_nanos_err))]
pub fn go_nanos(text: &[u8]) -> Result<u64, ScheduleError>
    ensures { result ≡ go_nanos text.now }
{
    match sum_at(behind_sign(text)) {
        Err(left) => Err(bad_duration(text, left)),
        Ok(sum) => signed_sum(is_negative(text), sum),
    }
}
