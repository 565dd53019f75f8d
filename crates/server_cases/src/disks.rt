// A disk in memory by itself.
use crate::numbers::bytes_of;
use actor_ports::PortError;
use case_texts::{add, add_hex, cut};
use disk_model::{Disk, MemDisk};
use std::alloc::Global;

pub(crate) fn add_error(alloc: Global, error: PortError, text: &mut String) -> Option<()> {
    add(format!(in alloc; "{error}").ok()?.as_str(), text)
}

pub(crate) fn add_result(
    alloc: Global,
    made: Result<(), PortError>,
    text: &mut String,
) -> Option<()> {
    match made {
        Ok(()) => add("ok", text),
        Err(error) => add_error(alloc, error, text),
    }
}

// `len`
fn add_len(alloc: Global, disk: &mut MemDisk, text: &mut String) -> Option<()> {
    match disk.len() {
        Ok(len) => add(format!(in alloc; "{len}").ok()?.as_str(), text),
        Err(error) => add_error(alloc, error, text),
    }
}

// `read AT MOST`
fn add_read(alloc: Global, disk: &mut MemDisk, rest: &str, text: &mut String) -> Option<()> {
    let (at, most) = rest.split_once(' ')?;
    let mut into = Vec::new(alloc);
    match disk.read(
        at.parse::<u64>().ok()?,
        most.parse::<usize>().ok()?,
        &mut into,
    ) {
        Ok(_) => add_hex(alloc, into.as_slice(), text),
        Err(error) => add_error(alloc, error, text),
    }
}

// `write AT BYTES`
fn add_write(alloc: Global, disk: &mut MemDisk, rest: &str, text: &mut String) -> Option<()> {
    let (at, bytes) = rest.split_once(' ')?;
    let at = at.parse::<u32>().ok()?;
    let bytes = bytes_of(alloc, bytes)?;
    if at as usize > disk.bytes().len() {
        return None;
    }
    add_result(alloc, disk.write_at(at as u64, bytes.as_slice()), text)
}

// `cut LEN`
fn add_cut(alloc: Global, disk: &mut MemDisk, rest: &str, text: &mut String) -> Option<()> {
    let len = rest.parse::<u32>().ok()?;
    if len as usize > disk.bytes().len() {
        return None;
    }
    add_result(alloc, disk.cut(len as u64), text)
}

// `image CHOICE`
fn add_image(alloc: Global, disk: &MemDisk, rest: &str, text: &mut String) -> Option<()> {
    let image = disk.image(rest.parse::<u64>().ok()?).ok()?;
    add_hex(alloc, image.bytes(), text)
}

fn add_step(alloc: Global, disk: &mut MemDisk, words: &str, text: &mut String) -> Option<()> {
    let (word, rest) = cut(words, ' ');
    match word {
        "len" => add_len(alloc, disk, text),
        "read" => add_read(alloc, disk, rest, text),
        "write" => add_write(alloc, disk, rest, text),
        "cut" => add_cut(alloc, disk, rest, text),
        "sync" => add_result(alloc, disk.sync(), text),
        "bytes" => add_hex(alloc, disk.bytes(), text),
        "image" => add_image(alloc, disk, rest, text),
        _ => None,
    }
}

/// `CALL,CALL,.. FILE STEP;STEP;..`
pub(crate) fn add_disk(alloc: Global, rest: &str, text: &mut String) -> Option<()> {
    let (calls, rest) = rest.split_once(' ')?;
    let (file, steps) = rest.split_once(' ')?;
    let bytes = bytes_of(alloc, file)?;
    let mut failing = Vec::new(alloc);
    for call in calls.split(',') {
        failing.push(call.parse::<u64>().ok()?).ok()?;
    }
    let mut disk = MemDisk::new(alloc, bytes.as_slice(), failing.as_slice()).ok()?;
    for words in steps.split(';') {
        add_step(alloc, &mut disk, words, text)?;
        add(";", text)?;
    }
    Some(())
}
