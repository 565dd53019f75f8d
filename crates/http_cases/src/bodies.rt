// Bodies of transactions, reminders and timers.
use crate::parts::{add_arrays, add_many, shown};
use api_bodies::{read_ops, read_reminder, read_timer, write_reminder};
use case_texts::escaped_bytes;
use reminder_rows::Reminder;
use state_rows::StateOp;
use std::alloc::Global;
use timer_book::{Timer, TimerText};

fn add_op(alloc: Global, op: &StateOp, text: &mut Vec<u8>) -> Option<()> {
    match op {
        StateOp::Upsert { key, value, ttl } => {
            text.extend_from_slice(key.as_str().as_bytes()).ok()?;
            text.push(b'=').ok()?;
            text.extend_from_slice(value.as_slice()).ok()?;
            add_seconds(alloc, ttl, text)?;
        }
        StateOp::Delete { key } => {
            text.push(b'-').ok()?;
            text.extend_from_slice(key.as_str().as_bytes()).ok()?;
        }
    }
    text.push(b';').ok()
}

fn add_seconds(alloc: Global, ttl: &Option<u32>, text: &mut Vec<u8>) -> Option<()> {
    if let Some(ttl) = ttl {
        let seconds = format!(in alloc; " for {ttl}").ok()?;
        text.extend_from_slice(seconds.as_bytes()).ok()?;
    }
    Some(())
}

fn ops_text(alloc: Global, ops: &[StateOp]) -> Option<String> {
    let mut text = Vec::new(alloc);
    for op in ops {
        add_op(alloc, op, &mut text)?;
    }
    shown(alloc, text.as_slice())
}

// The operations, or why there are none.
fn read(alloc: Global, body: &[u8]) -> Option<String> {
    match &read_ops(alloc, body) {
        Ok(ops) => ops_text(alloc, ops.as_slice()),
        Err(error) => format!(in alloc; "{error}").ok(),
    }
}

/// `KEY=VALUE;` or `KEY=VALUE for SECONDS;` or `-KEY;` for each operation, or why there are none.
pub(crate) fn operations(alloc: Global, text: &str) -> Option<String> {
    read(alloc, escaped_bytes(alloc, text)?.as_slice())
}

/// The same of an upsert of so many arrays, each inside the one before.
pub(crate) fn deep(alloc: Global, text: &str) -> Option<String> {
    let front = b"[{\"operation\":\"upsert\",\"request\":{\"key\":\"k\",\"value\":";
    let mut body = Vec::from_slice(alloc, front).ok()?;
    add_arrays(text.parse::<u64>().ok()?, &mut body)?;
    body.extend_from_slice(b"}}]").ok()?;
    read(alloc, body.as_slice())
}

/// The same of a delete without a key, and so many others.
pub(crate) fn deletes(alloc: Global, text: &str) -> Option<String> {
    let front = b"[{\"operation\":\"delete\",\"request\":{\"key\":\"\"}}";
    let more = b",{\"operation\":\"delete\",\"request\":{\"key\":\"k\"}}";
    let mut body = Vec::from_slice(alloc, front).ok()?;
    add_many(more, text.parse::<u64>().ok()?, &mut body)?;
    body.push(b']').ok()?;
    read(alloc, body.as_slice())
}

fn reminder_text(alloc: Global, reminder: &Reminder) -> Option<String> {
    let text = write_reminder(
        alloc,
        &reminder.due,
        &reminder.period,
        &reminder.ttl,
        &reminder.payload,
    );
    shown(alloc, text.ok()?.as_slice())
}

/// The reminder as it is told, or why there is none.
pub(crate) fn reminder(alloc: Global, text: &str) -> Option<String> {
    match &read_reminder(alloc, escaped_bytes(alloc, text)?.as_slice(), 1000) {
        Ok(reminder) => reminder_text(alloc, reminder),
        Err(error) => format!(in alloc; "{error}").ok(),
    }
}

// The text; empty if there is none.
fn text_in(text: &Option<TimerText>) -> &str {
    match text {
        Some(text) => text.as_str(),
        None => "",
    }
}

fn timer_text(alloc: Global, timer: &Timer) -> Option<String> {
    let callback = timer.callback.as_str();
    let due = timer.due.as_str();
    let payload = text_in(&timer.payload);
    format!(in alloc; "{callback}|{due}|{payload}").ok()
}

/// `CALLBACK|DUE|PAYLOAD`, or why there is no timer.
pub(crate) fn timer(alloc: Global, text: &str) -> Option<String> {
    match &read_timer(alloc, escaped_bytes(alloc, text)?.as_slice(), 1000) {
        Ok(timer) => timer_text(alloc, timer),
        Err(error) => format!(in alloc; "{error}").ok(),
    }
}
