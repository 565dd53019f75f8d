// A store with its fence, in memory.
use crate::sessions::{Link, add_told, link_of};
use crate::subject::{Disks, Subject};
use actor_ports::SessionEnd;
use case_texts::{add, cut};
use disk_model::MemDisk;
use fence_rows::Fenced;
use frame_session::PlacedSeat;
use group_gate::GroupGate;
use placement_node::PlacementOpenError;
use std::alloc::Global;
use std::sync::Wait;
use store_core::CompactEnd;
use store_server::store_session;
use tx_journal::JournalError;

/// A fenced store in memory.
pub(crate) type Memory = Fenced<MemDisk>;

// The store after a session over a connection, at the one place of a gate of its own, and how the session ended.
fn served<R: Wait>(
    rt: &R,
    alloc: Global,
    store: Memory,
    link: &mut Link,
) -> Option<(Memory, SessionEnd)> {
    let (gate, seat) = GroupGate::new(alloc, store, 1).ok()?;
    let mut seat = seat;
    let place = gate.sit(&mut seat)?;
    let placed = PlacedSeat { seat, place };
    let (placed, end) = store_session(rt, alloc, &gate, placed, &mut link.conn, &mut link.clock);
    let PlacedSeat { seat, place } = placed;
    let mut seat = seat;
    gate.rise(&mut seat, place);
    Some((gate.close(rt, seat), end))
}

/// Serves a session over a connection, and appends how it ended and what it wrote.
pub(crate) fn serve<R: Wait>(
    rt: &R,
    alloc: Global,
    kept: &mut Option<Memory>,
    link: &mut Link,
    text: &mut String,
) -> Option<()> {
    let (store, end) = served(rt, alloc, kept.take()?, link)?;
    *kept = Some(store);
    add_told(alloc, end, link.conn.written(), text)
}

// `at MS BYTES CALL`
fn at<R: Wait>(
    rt: &R,
    alloc: Global,
    kept: &mut Option<Memory>,
    rest: &str,
    text: &mut String,
) -> Option<()> {
    let mut link = link_of(alloc, rest)?;
    serve(rt, alloc, kept, &mut link, text)
}

fn add_end(alloc: Global, end: CompactEnd, text: &mut String) -> Option<()> {
    let words = match end {
        CompactEnd::Compacted { rows } => format!(in alloc; "compacted {rows}"),
        CompactEnd::NotNeeded { len } => format!(in alloc; "not needed at {len}"),
        CompactEnd::Failed { error } => format!(in alloc; "failed: {error}"),
        CompactEnd::OutOfMemory => format!(in alloc; "out of memory"),
    };
    add(words.ok()?.as_str(), text)
}

// `compact LEAST MS`
fn compact(alloc: Global, kept: &mut Option<Memory>, rest: &str, text: &mut String) -> Option<()> {
    let (least, now) = rest.split_once(' ')?;
    let least = least.parse::<u64>().ok()?;
    let now = now.parse::<u32>().ok()?;
    let end = kept.as_mut()?.compact(least, now as u64);
    add_end(alloc, end, text)
}

// Why something that needs two disks isn't opened over one.
fn one_disk() -> PlacementOpenError {
    PlacementOpenError::Journal {
        error: JournalError::OneDisk,
    }
}

impl Subject for Memory {
    fn open(
        alloc: Global,
        disks: Disks,
        create: bool,
    ) -> Result<Memory, (PlacementOpenError, Disks)> {
        let Disks { first, second } = disks;
        let Some(second) = second else {
            return Err((
                one_disk(),
                Disks {
                    first,
                    second: None,
                },
            ));
        };
        match Fenced::open(alloc, first, second, create) {
            Ok(store) => Ok(store),
            Err((error, first, second)) => Err((
                PlacementOpenError::Journal { error },
                Disks {
                    first,
                    second: Some(second),
                },
            )),
        }
    }

    fn close(self) -> Disks {
        let (first, second) = Fenced::close(self);
        Disks { first, second }
    }

    fn first(&self) -> &MemDisk {
        self.disk()
    }

    fn second(&self) -> Option<&MemDisk> {
        Fenced::second(self)
    }

    fn step<R: Wait>(
        rt: &R,
        alloc: Global,
        kept: &mut Option<Memory>,
        words: &str,
        text: &mut String,
    ) -> Option<()> {
        let (word, rest) = cut(words, ' ');
        match word {
            "at" => at(rt, alloc, kept, rest, text),
            "compact" => compact(alloc, kept, rest, text),
            _ => None,
        }
    }
}
