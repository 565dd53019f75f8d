// A journal over a real file.
//
//     append PATH COUNT     makes the file and appends COUNT payloads of 50 bytes
//     raw PATH COUNT        writes as many records with two syncs each, without a journal
//     open PATH COUNT       opens the file and replays its payloads, at most COUNT
//     read PATH COUNT       reads the file's bytes; COUNT is ignored
//
// The count is how many payloads or bytes there were.
use disk_model::{Disk, FileDisk};
use std::alloc::Global;
use std::fs::{File, Files, OpenOptions};
use std::io;
use tx_journal::Journal;

const PAYLOAD: [u8; 50] = [7; 50];

// As many bytes as a record of such a payload has, with the closed gate behind it.
const RECORD: [u8; 55] = [7; 55];

/// Does what `mode` says and answers the count; `None` if the disk failed, or if the words make no sense.
pub fn run<R: Files<File = File>>(
    rt: &R,
    alloc: Global,
    mode: &str,
    path: &str,
    count: &str,
) -> io::Result<Option<u64>> {
    let Ok(count) = count.parse::<u64>() else {
        return Ok(None);
    };
    let file = OpenOptions::new()
        .read(true)
        .write(true)
        .create(true)
        .open(rt, path)?;
    Ok(run_over(alloc, mode, file, count))
}

// The same over the opened file.
fn run_over(alloc: Global, mode: &str, file: File, count: u64) -> Option<u64> {
    let Ok(disk) = FileDisk::new(alloc, file) else {
        return None;
    };
    match mode {
        "append" => append_all(alloc, disk, count),
        "raw" => write_all(disk, count),
        "open" => replay_all(alloc, disk, count),
        "read" => read_all(alloc, disk),
        _ => None,
    }
}

fn append_all(alloc: Global, disk: FileDisk<File>, count: u64) -> Option<u64> {
    let Ok(mut journal) = Journal::open(alloc, disk, true) else {
        return None;
    };
    for _ in 0..count {
        if journal.append(&PAYLOAD).is_err() {
            return None;
        }
    }
    Some(count)
}

fn write_all(disk: FileDisk<File>, count: u64) -> Option<u64> {
    let mut disk = disk;
    let mut at = 9u64;
    for _ in 0..count {
        if write_one(&mut disk, at).is_none() {
            return None;
        }
        at = at.saturating_add(55);
    }
    Some(count)
}

// The four calls that write a record: two writes with a sync after each.
fn write_one(disk: &mut FileDisk<File>, at: u64) -> Option<()> {
    if disk.write_at(at, &RECORD).is_err() || disk.sync().is_err() {
        return None;
    }
    if disk.write_at(at.saturating_sub(1), &[1]).is_err() || disk.sync().is_err() {
        return None;
    }
    Some(())
}

fn replay_all(alloc: Global, disk: FileDisk<File>, count: u64) -> Option<u64> {
    let Ok(mut journal) = Journal::open(alloc, disk, false) else {
        return None;
    };
    for index in 0..count {
        match journal.replay(alloc, index) {
            Ok(Some(_)) => {}
            _ => return Some(index),
        }
    }
    Some(count)
}

fn read_all(alloc: Global, disk: FileDisk<File>) -> Option<u64> {
    let mut disk = disk;
    let mut piece = Vec::new(alloc);
    let mut at = 0u64;
    for _ in 0..u64::MAX {
        piece.clear();
        match disk.read(at, 65_536, &mut piece) {
            Ok(0) => return Some(at),
            Ok(got) => at = at.saturating_add(got as u64),
            Err(_) => return None,
        }
    }
    None
}
