// The bodies of reminders and timers.
ghost use Rattle.std.specs.Prelude.{◌≡◌, ◌<◌, ◌*◌, Ok, option_map};
ghost use Rattle.std.specs.String.{string_bytes};
ghost use Rattle.json_text.specs.Values.{member_at};
ghost use Rattle.api_bodies.specs.Reading.{Gives, ReadsBody};
ghost use Rattle.api_bodies.specs.Records.{or_braces, optional_text, texts_view, texts_in, texts_reading, kept_value, schedule_reading, reminder_with, timer_with, reminder_in, timer_in, reminder_reading, timer_reading, short};

use crate::body::{body_value, kept_text};
use crate::error::{BodyError, error_of};
use crate::fault::{Fault, malformed};
use json_text::JsonRef;
use reminder_rows::{Reminder, ReminderPayload, ReminderText};
use schedule_text::{Moment, Schedule, read_schedule};
use std::alloc::Global;
use timer_book::{Timer, TimerText};

const MOST_TEXT_BYTES: usize = 256;

// The texts of a schedule.
#[derive(Clone, Copy)]
pub(crate) struct Texts<'a> {
    due: &'a str,
    period: &'a str,
    ttl: &'a str,
}

// No body counts as `{}`.
fn or_braces(body: &[u8]) -> &[u8]
    ensures { result.now ≡ or_braces body.now }
{
    if body.is_empty() { b"{}" } else { body }
}

// A text of at most 256 bytes.
fn short(text: Option<&str>) -> Result<&str, Fault>
    ensures { Gives (λ t. t.now) result (short (option_map (λ t. t.now) text.entry)) }
{
    match text {
        None => Err(malformed()),
        Some(text) => {
            if text.len() > MOST_TEXT_BYTES {
                return Err(malformed());
            }
            Ok(text)
        }
    }
}

// The text of an optional member; empty if it is absent or null.
fn optional_text<'a>(whole: &JsonRef<'a>, key: &str) -> Result<&'a str, Fault>
    ensures { Gives (λ t. t.now) result (optional_text (member_at key.now whole.now)) }
{
    match whole.member(key) {
        None => Ok(""),
        Some(value) => {
            if value.is_null() {
                return Ok("");
            }
            short(value.as_str())
        }
    }
}

fn texts_in<'a>(whole: &JsonRef<'a>) -> Result<Texts<'a>, Fault>
    ensures { Gives texts_view result (texts_in whole.now) }
{
    let due = optional_text(whole, "dueTime")?;
    let period = optional_text(whole, "period")?;
    let ttl = optional_text(whole, "ttl")?;
    Ok(Texts { due, period, ttl })
}

// The texts of an object.
fn texts_of<'a>(whole: &JsonRef<'a>) -> Result<Texts<'a>, Fault>
    ensures { Gives texts_view result (texts_reading whole.now) }
{
    if !whole.is_object() {
        return Err(malformed());
    }
    texts_in(whole)
}

// The text of an optional member that is kept.
fn kept_member(alloc: Global, whole: &JsonRef<'_>, key: &str) -> Result<Option<String>, Fault>
    ensures { Gives (option_map string_bytes) result (kept_value (member_at key.now whole.now)) }
{
    match whole.member(key) {
        None => Ok(None),
        Some(value) => {
            let text = kept_text(alloc, &value)?;
            Ok(Some(text))
        }
    }
}

// A moment in milliseconds since 1970.
fn moment_of(now: u64) -> Moment
    requires { now < 253370764800000 }
    ensures { result ≡ now * 1000000 }
{
    Moment::from_nanos(now as u128 * 1_000_000).unwrap()
}

fn schedule_of(texts: &Texts<'_>, now: u64) -> Result<Schedule, Fault>
    requires { now < 253370764800000 }
    ensures { Gives (λ schedule. schedule) result (schedule_reading (texts_view texts.now) now) }
{
    match read_schedule(texts.due, texts.period, texts.ttl, moment_of(now)) {
        Ok(schedule) => Ok(schedule),
        Err(fault) => Err(Fault::Refused {
            error: BodyError::BadSchedule { fault },
        }),
    }
}

fn reminder_text(alloc: Global, text: &str) -> Result<ReminderText, Fault>
    ensures { Gives (λ t. t) result (Ok text.now) }
{
    let text = String::from_str(alloc, text)?;
    Ok(ReminderText::from_string(text))
}

fn timer_text(alloc: Global, text: &str) -> Result<TimerText, Fault>
    ensures { Gives (λ t. t) result (Ok text.now) }
{
    let text = String::from_str(alloc, text)?;
    Ok(TimerText::from_string(text))
}

fn reminder_payload(text: Option<String>) -> Option<ReminderPayload>
    ensures { result ≡ option_map string_bytes text }
{
    match text {
        None => None,
        Some(text) => Some(ReminderPayload::from_vec(text.into_bytes())),
    }
}

fn timer_payload(text: Option<String>) -> Option<TimerText>
    ensures { result ≡ option_map string_bytes text }
{
    match text {
        None => None,
        Some(text) => Some(TimerText::from_string(text)),
    }
}

// The reminder with these texts.
fn reminder_with(
    alloc: Global,
    texts: &Texts<'_>,
    payload: Option<ReminderPayload>,
    schedule: Schedule,
) -> Result<Reminder, Fault>
    ensures { Gives (λ reminder. reminder) result (Ok (reminder_with (texts_view texts.now) payload schedule)) }
{
    let due = reminder_text(alloc, texts.due)?;
    let period = reminder_text(alloc, texts.period)?;
    let ttl = reminder_text(alloc, texts.ttl)?;
    Ok(Reminder {
        schedule,
        due,
        period,
        ttl,
        payload,
    })
}

// The timer with these texts.
fn timer_with(
    alloc: Global,
    texts: &Texts<'_>,
    callback: &str,
    payload: Option<TimerText>,
    schedule: Schedule,
) -> Result<Timer, Fault>
    ensures { Gives (λ timer. timer) result (Ok (timer_with (texts_view texts.now) callback.now payload schedule)) }
{
    let callback = timer_text(alloc, callback)?;
    let due = timer_text(alloc, texts.due)?;
    let period = timer_text(alloc, texts.period)?;
    Ok(Timer {
        schedule,
        callback,
        payload,
        due,
        period,
    })
}

fn reminder_in(alloc: Global, whole: &JsonRef<'_>, now: u64) -> Result<Reminder, Fault>
    requires { now < 253370764800000 }
    ensures { Gives (λ reminder. reminder) result (reminder_in whole.now now) }
{
    let texts = texts_of(whole)?;
    let data = kept_member(alloc, whole, "data")?;
    let schedule = schedule_of(&texts, now)?;
    reminder_with(alloc, &texts, reminder_payload(data), schedule)
}

fn timer_in(alloc: Global, whole: &JsonRef<'_>, now: u64) -> Result<Timer, Fault>
    requires { now < 253370764800000 }
    ensures { Gives (λ timer. timer) result (timer_in whole.now now) }
{
    let texts = texts_of(whole)?;
    let callback = optional_text(whole, "callback")?;
    let data = kept_member(alloc, whole, "data")?;
    let schedule = schedule_of(&texts, now)?;
    timer_with(alloc, &texts, callback, timer_payload(data), schedule)
}

fn reminder_of(alloc: Global, body: &[u8], now: u64) -> Result<Reminder, Fault>
    requires { now < 253370764800000 }
    ensures { Gives (λ reminder. reminder) result (reminder_reading body.now now) }
{
    let json = body_value(alloc, or_braces(body))?;
    reminder_in(alloc, &json.as_ref(), now)
}

fn timer_of(alloc: Global, body: &[u8], now: u64) -> Result<Timer, Fault>
    requires { now < 253370764800000 }
    ensures { Gives (λ timer. timer) result (timer_reading body.now now) }
{
    let json = body_value(alloc, or_braces(body))?;
    timer_in(alloc, &json.as_ref(), now)
}

/// The reminder of a body at `now`, in milliseconds since 1970.
pub fn read_reminder(alloc: Global, body: &[u8], now: u64) -> Result<Reminder, BodyError>
    requires { now < 253370764800000 }
    ensures { ReadsBody (reminder_reading body.now now) result }
{
    match reminder_of(alloc, body, now) {
        Ok(reminder) => Ok(reminder),
        Err(fault) => Err(error_of(fault)),
    }
}

/// The timer of a body at `now`, in milliseconds since 1970.
pub fn read_timer(alloc: Global, body: &[u8], now: u64) -> Result<Timer, BodyError>
    requires { now < 253370764800000 }
    ensures { ReadsBody (timer_reading body.now now) result }
{
    match timer_of(alloc, body, now) {
        Ok(timer) => Ok(timer),
        Err(fault) => Err(error_of(fault)),
    }
}
