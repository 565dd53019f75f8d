// A journal of one disk in memory, or of two.
use crate::numbers::bytes_of;
use crate::subject::{Disks, Subject};
use case_texts::{add, add_hex, cut};
use disk_model::MemDisk;
use placement_node::PlacementOpenError;
use std::alloc::Global;
use std::sync::Wait;
use tx_journal::{Journal, JournalError};

type Memory = Journal<MemDisk>;

fn add_error(alloc: Global, error: JournalError, text: &mut String) -> Option<()> {
    add(format!(in alloc; "{error}").ok()?.as_str(), text)
}

fn add_result(alloc: Global, made: Result<(), JournalError>, text: &mut String) -> Option<()> {
    match made {
        Ok(()) => add("ok", text),
        Err(error) => add_error(alloc, error, text),
    }
}

// Appends the payloads, or why they aren't read.
fn add_rows(alloc: Global, journal: &mut Memory, text: &mut String) -> Option<()> {
    add("rows", text)?;
    for index in 0..1_000 {
        add(" ", text)?;
        match journal.replay(alloc, index) {
            Ok(Some(payload)) => add_hex(alloc, payload.as_slice(), text)?,
            Ok(None) => return add("end", text),
            Err(error) => return add_error(alloc, error, text),
        }
    }
    None
}

fn add_state(alloc: Global, journal: &Memory, text: &mut String) -> Option<()> {
    let (format, len) = (journal.format(), journal.len());
    let words = match journal.generation() {
        Some(number) => format!(in alloc; "format {format} generation {number} length {len}"),
        None => format!(in alloc; "format {format} length {len}"),
    };
    add(words.ok()?.as_str(), text)
}

fn add_step(alloc: Global, journal: &mut Memory, words: &str, text: &mut String) -> Option<()> {
    let (word, rest) = cut(words, ' ');
    match word {
        "append" => {
            let payload = bytes_of(alloc, rest)?;
            add_result(alloc, journal.append(payload.as_slice()), text)
        }
        "start" => add_result(alloc, journal.compact_start(), text),
        "add" => {
            let payload = bytes_of(alloc, rest)?;
            add_result(alloc, journal.compact_add(payload.as_slice()), text)
        }
        "finish" => add_result(alloc, journal.compact(), text),
        "rows" => add_rows(alloc, journal, text),
        "state" => add_state(alloc, journal, text),
        _ => None,
    }
}

// The journal of one disk.
fn open_one(
    alloc: Global,
    disk: MemDisk,
    create: bool,
) -> Result<Memory, (PlacementOpenError, Disks)> {
    match Journal::open(alloc, disk, create) {
        Ok(journal) => Ok(journal),
        Err((error, first)) => Err((
            PlacementOpenError::Journal { error },
            Disks {
                first,
                second: None,
            },
        )),
    }
}

impl Subject for Memory {
    fn open(
        alloc: Global,
        disks: Disks,
        create: bool,
    ) -> Result<Memory, (PlacementOpenError, Disks)> {
        let Disks { first, second } = disks;
        let Some(second) = second else {
            return open_one(alloc, first, create);
        };
        match Journal::open_pair(alloc, first, second, create) {
            Ok(journal) => Ok(journal),
            Err((error, first, second)) => Err((
                PlacementOpenError::Journal { error },
                Disks {
                    first,
                    second: Some(second),
                },
            )),
        }
    }

    fn close(self) -> Disks {
        let (first, second) = Journal::close(self);
        Disks { first, second }
    }

    fn first(&self) -> &MemDisk {
        self.disk()
    }

    fn second(&self) -> Option<&MemDisk> {
        Journal::second(self)
    }

    fn step<R: Wait>(
        _rt: &R,
        alloc: Global,
        kept: &mut Option<Memory>,
        words: &str,
        text: &mut String,
    ) -> Option<()> {
        add_step(alloc, kept.as_mut()?, words, text)
    }
}
