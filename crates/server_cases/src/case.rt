// One case and its answer.
use crate::cuts::add_cuts;
use crate::disks::add_disk;
use crate::mirrors::{add_copied, add_mirror};
use crate::numbers::bytes_of;
use crate::placements::Placement;
use crate::runs::{add_last, note};
use crate::standbys::add_standby;
use crate::stores::Memory;
use crate::subject::{Case, Disks, Subject};
use case_texts::{add, cut};
use disk_model::MemDisk;
use std::alloc::Global;
use std::sync::Wait;
use tx_journal::Journal;

/// The name of a case and its answer; `None` if it is none, or memory ran out.
pub(crate) fn answer<R: Wait>(rt: &R, alloc: Global, line: &str) -> Option<String> {
    let (name, case) = line.split_once(' ')?;
    let (word, rest) = case.split_once(' ')?;
    let mut text = String::new(alloc);
    add(name, &mut text)?;
    add(" ", &mut text)?;
    add_answer(rt, alloc, word, rest, &mut text)?;
    Some(text)
}

fn add_answer<R: Wait>(
    rt: &R,
    alloc: Global,
    word: &str,
    rest: &str,
    text: &mut String,
) -> Option<()> {
    match word {
        "placement" => add_cases::<R, Placement>(rt, alloc, rest, text),
        "store" => add_cases::<R, Memory>(rt, alloc, rest, text),
        "journal" => add_cases::<R, Journal<MemDisk>>(rt, alloc, rest, text),
        "disk" => add_disk(alloc, rest, text),
        "cuts" => add_cuts(rt, alloc, rest, text),
        "mirror" => add_mirror(rt, alloc, rest, text),
        "copied" => add_copied(rt, alloc, rest, text),
        "standby" => add_standby(rt, alloc, rest, text),
        _ => None,
    }
}

// At which calls one of the disks fails.
#[derive(Clone, Copy, Drop)]
struct Calls {
    is_second: bool,
    first: u32,
    last: u32,
}

// `CALL`, `CALL-CALL`, or one of these behind `/`
fn calls_of(text: &str) -> Option<Calls> {
    let (is_second, numbers) = match text.split_once('/') {
        Some((_, numbers)) => (true, numbers),
        None => (false, text),
    };
    let (first, last) = match numbers.split_once('-') {
        Some(pair) => pair,
        None => (numbers, numbers),
    };
    Some(Calls {
        is_second,
        first: first.parse::<u32>().ok()?,
        last: last.parse::<u32>().ok()?,
    })
}

// A disk of the bytes that a text writes, whose call of this number is to fail.
fn disk_of(alloc: Global, text: &str, failing: u64) -> Option<MemDisk> {
    let bytes = bytes_of(alloc, text)?;
    MemDisk::new(alloc, bytes.as_slice(), &[failing]).ok()
}

// `FILE` or `FILE/FILE`, if a call of this number fails.
fn disks_of(alloc: Global, files: &str, is_second: bool, call: u64) -> Option<Disks> {
    let (of_first, of_second) = if is_second { (0, call) } else { (call, 0) };
    match files.split_once('/') {
        Some((one, other)) => Some(Disks {
            first: disk_of(alloc, one, of_first)?,
            second: Some(disk_of(alloc, other, of_second)?),
        }),
        None => Some(Disks {
            first: disk_of(alloc, files, of_first)?,
            second: None,
        }),
    }
}

// Appends what the steps tell over these disks.
fn add_steps<R: Wait, T: Subject>(
    rt: &R,
    alloc: Global,
    disks: Disks,
    create: bool,
    steps: &str,
    text: &mut String,
) -> Option<()> {
    let mut case = Case::<T>::new();
    if !case.open(alloc, disks, create, text)? {
        add(";", text)?;
    }
    if steps.is_empty() {
        return Some(());
    }
    case.steps(rt, alloc, steps, text)
}

// `HOW CALLS FILES STEP;STEP;..`
fn add_cases<R: Wait, T: Subject>(
    rt: &R,
    alloc: Global,
    rest: &str,
    text: &mut String,
) -> Option<()> {
    let (how, rest) = rest.split_once(' ')?;
    let (calls, rest) = rest.split_once(' ')?;
    let (files, steps) = cut(rest, ' ');
    let calls = calls_of(calls)?;
    let create = how == "make";
    if calls.first == calls.last {
        let disks = disks_of(alloc, files, calls.is_second, calls.first as u64)?;
        return add_steps::<R, T>(rt, alloc, disks, create, steps, text);
    }
    let mut run = None;
    for call in calls.first as u64..calls.last as u64 + 1 {
        let disks = disks_of(alloc, files, calls.is_second, call)?;
        let mut told = String::new(alloc);
        add_steps::<R, T>(rt, alloc, disks, create, steps, &mut told)?;
        note(alloc, &mut run, call, told, text)?;
    }
    add_last(alloc, &run, text)
}
