// Frames one after another: where they are cut, and how they are printed.
use crate::sessions::add_told;
use actor_ports::SessionEnd;
use case_texts::{add, add_hex};
use std::alloc::Global;

// What a number is after one digit more; a digit is a byte.
fn longer(number: usize, digit: u8) -> usize {
    number.saturating_mul(256).saturating_add(digit as usize)
}

// The first frame and what is behind it; `None` if it isn't whole.
fn first_frame(bytes: &[u8]) -> Option<(&[u8], &[u8])> {
    let (head, rest) = bytes.split_at_checked(4)?;
    let mut length = 0usize;
    for byte in head {
        length = longer(length, *byte);
    }
    let (_, behind) = rest.split_at_checked(length)?;
    bytes.split_at_checked(bytes.len().saturating_sub(behind.len()))
}

// How many whole frames the bytes begin with, but at most so many, and what is behind them.
fn whole_frames(bytes: &[u8], most: u64) -> (u64, &[u8]) {
    let mut rest = bytes;
    for count in 0..most {
        match first_frame(rest) {
            Some((_, more)) => rest = more,
            None => return (count, rest),
        }
    }
    (most, rest)
}

// So many of the frames.
fn first_frames(bytes: &[u8], count: u64) -> Option<&[u8]> {
    let (_, others) = whole_frames(bytes, count);
    let (front, _) = bytes.split_at_checked(bytes.len().saturating_sub(others.len()))?;
    Some(front)
}

/// What is to be said of a session that is given this input: its whole frames are answered so, one frame each, and it
/// ends as malformed if a cut frame is left.
pub(crate) fn wanted(alloc: Global, input: &[u8], answers: &[u8]) -> Option<String> {
    let (requests, cut) = whole_frames(input, 1_000);
    let end = if cut.is_empty() {
        SessionEnd::Done { requests }
    } else {
        SessionEnd::Malformed { requests }
    };
    let mut text = String::new(alloc);
    add_told(alloc, end, first_frames(answers, requests)?, &mut text)?;
    Some(text)
}

// How many frames equal to this one the bytes begin with, and what is behind them.
fn equal_frames<'a>(bytes: &'a [u8], frame: &[u8]) -> (u64, &'a [u8]) {
    let mut rest = bytes;
    let mut count = 0u64;
    for _ in 0..bytes.len() {
        match first_frame(rest) {
            Some((next, more)) if next == frame => rest = more,
            _ => break,
        }
        count = count.saturating_add(1);
    }
    (count, rest)
}

// Appends the first frame, or what stands for it and more than three equal ones behind it, and returns the others.
fn add_first<'a>(alloc: Global, bytes: &'a [u8], text: &mut String) -> Option<&'a [u8]> {
    let Some((frame, rest)) = first_frame(bytes) else {
        add_hex(alloc, bytes, text)?;
        return Some(&[]);
    };
    let (count, others) = equal_frames(bytes, frame);
    if count < 5 {
        add_hex(alloc, frame, text)?;
        return Some(rest);
    }
    add("(", text)?;
    add_hex(alloc, frame, text)?;
    add(format!(in alloc; ")*{count}").ok()?.as_str(), text)?;
    Some(others)
}

/// Appends frames; more than four equal ones, one after another, are printed once, as `(FRAME)*COUNT`.
pub(crate) fn add_frames(alloc: Global, bytes: &[u8], text: &mut String) -> Option<()> {
    let mut rest = bytes;
    for _ in 0..bytes.len() {
        if rest.is_empty() {
            break;
        }
        rest = add_first(alloc, rest, text)?;
    }
    Some(())
}
