// The text of a moment.
ghost use Rattle.std.specs.Prelude.{◌≡◌, ◌++◌, ◌<◌, OnOk, take};
ghost use Rattle.event_log.specs.Lines.{stamp_parts, stamp_text, three_digits};

use actor_names::OutOfMemory;
use schedule_text::{Moment, print_moment};
use std::alloc::Global;

// The bytes of a moment's text up to its seconds.
const SECONDS_END: usize = 19;

// The first bytes of a text.
fn front(text: &[u8], most: usize) -> &[u8]
    ensures { result.now ≡ take most text.now }
{
    if text.len() <= most {
        text
    } else {
        &text[..most]
    }
}

// Appends three digits.
fn push_three(into: &mut Vec<u8>, n: u64) -> Result<(), OutOfMemory>
    requires { n < 1000 }
    ensures { OnOk result (into.new.items ≡ into.old.items ++ three_digits n) }
{
    let digits = [
        b'0' + (n / 100) as u8,
        b'0' + (n / 10 % 10) as u8,
        b'0' + (n % 10) as u8,
    ];
    into.extend_from_slice(&digits)?;
    Ok(())
}

// Appends a second and the milliseconds behind it.
fn push_parts(
    alloc: Global,
    into: &mut Vec<u8>,
    second: Moment,
    millis: u64,
) -> Result<(), OutOfMemory>
    requires { millis < 1000 }
    ensures { OnOk result (into.new.items ≡ into.old.items ++ stamp_parts second millis) }
{
    let Ok(text) = print_moment(alloc, second) else {
        return Err(OutOfMemory);
    };
    into.extend_from_slice(front(text.as_bytes(), SECONDS_END))?;
    into.extend_from_slice(b".")?;
    push_three(into, millis)?;
    into.extend_from_slice(b"Z ")?;
    Ok(())
}

/// Appends a moment in milliseconds since 1970 as `YYYY-MM-DDThh:mm:ss.mmmZ` and a space; from 9999 on nothing.
#[tactic(auto, unfolding(crate::specs::Lines::stamp_text))]
pub(crate) fn push_stamp(alloc: Global, into: &mut Vec<u8>, at_ms: u64) -> Result<(), OutOfMemory>
    ensures { OnOk result (into.new.items ≡ into.old.items ++ stamp_text at_ms) }
{
    let nanos = (at_ms / 1_000) as u128 * 1_000_000_000;
    match Moment::from_nanos(nanos) {
        None => Ok(()),
        Some(second) => push_parts(alloc, into, second, at_ms % 1_000),
    }
}
