// One turn of the compactions: what is asked of the store, and when the next one is due.
ghost use Rattle.std.specs.Prelude.{◌≡◌, ◌<◌};
ghost use Rattle.group_gate.specs.Gates.{IsSeatOf, SitsAt};
ghost use Rattle.fence_rows.specs.Together.{AllowsAll};
ghost use Rattle.store_server.specs.Compacting.{came_by, came_of, grown, next_least, Asks, AsksTwice, IsTurn};
ghost use Rattle.tx_journal.specs.File.{most_bytes};

use disk_model::Disk;
use event_log::{EventLog, Notice};
use fence_rows::{Fenced, FencedEvent, FencedOutcome};
use group_gate::{GroupGate, GroupSeat, Place};
use std::sync::Wait;
use store_core::CompactEnd;
use tx_journal::JournalError;

/// The least length of a file that is written anew, in bytes.
pub(crate) const USUAL_LEAST: u64 = 67_108_864;

// The most bytes of a journal's file.
const MOST_BYTES: u64 = 1_073_741_824;

/// What came of a compaction, to the loop that asks for them.
#[derive(Clone, Copy)]
pub(crate) enum Compaction {
    /// The file was written anew, with `rows` rows.
    Made { rows: u64 },
    /// The file has `len` bytes, fewer than were asked for.
    Short { len: u64 },
    /// It wasn't written anew, and the store goes on as before.
    Kept,
    /// The store has lost its disk, or takes no more events.
    Lost,
}

// What came of a compaction that the journal refused.
fn came_by(error: &JournalError) -> Compaction
    ensures { result ≡ came_by error.now }
{
    match error {
        JournalError::DiskFault | JournalError::Reopen => Compaction::Lost,
        _ => Compaction::Kept,
    }
}

// What came of a compaction.
fn came_of(outcome: &FencedOutcome) -> Compaction
    ensures { result ≡ came_of outcome.now }
{
    match outcome {
        FencedOutcome::CompactIs { end } => match end {
            CompactEnd::Compacted { rows } => Compaction::Made { rows: *rows },
            CompactEnd::NotNeeded { len } => Compaction::Short { len: *len },
            CompactEnd::Failed { error } => came_by(error),
            CompactEnd::OutOfMemory => Compaction::Kept,
        },
        FencedOutcome::Answer { answer: _ } => Compaction::Kept,
    }
}

// The lesser of twice so many bytes and the middle between them and the most bytes of a file.
fn grown(len: u64) -> u64
    requires { len < most_bytes }
    ensures { result ≡ grown len }
{
    let twice = len * 2;
    let middle = (len + MOST_BYTES) / 2;
    if twice < middle { twice } else { middle }
}

// The least length for the next compaction, after one that left `len` bytes: 67,108,864 bytes, or `grown` where that is
// more. So it is due before the file is full, however many bytes were left, and no more often than half of the room that
// they left is used up.
fn next_least(len: u64) -> u64
    ensures is { result ≡ next_least len }
    ensures due { len < most_bytes → result < most_bytes }
{
    if len >= MOST_BYTES {
        return MOST_BYTES;
    }
    let due = grown(len);
    if due < USUAL_LEAST { USUAL_LEAST } else { due }
}

// Asks for one compaction.
fn ask<R: Wait, D: Disk>(
    rt: &R,
    gate: &GroupGate<Fenced<D>>,
    seat: &mut GroupSeat<Fenced<D>>,
    place: &Place,
    least: u64,
    now: u64,
) -> Compaction
    requires seat { SitsAt AllowsAll gate.now place.now.at seat.old }
    requires early { now < 253370764800000 }
    ensures seat { SitsAt AllowsAll gate.now place.now.at seat.new }
    ensures asks { Asks place.now.at least now seat.old seat.new result }
{
    match gate.call_in(rt, seat, place, FencedEvent::Compact { least, now }) {
        Ok(outcome) => came_of(&outcome),
        Err(_) => Compaction::Lost,
    }
}

// One compaction, and behind one that was made the question for the length that it left.
fn ask_twice<R: Wait, D: Disk>(
    rt: &R,
    gate: &GroupGate<Fenced<D>>,
    seat: &mut GroupSeat<Fenced<D>>,
    place: &Place,
    least: u64,
    now: u64,
    log: &EventLog,
) -> Option<u64>
    requires seat { SitsAt AllowsAll gate.now place.now.at seat.old }
    requires early { now < 253370764800000 }
    ensures seat { SitsAt AllowsAll gate.now place.now.at seat.new }
    ensures asks { AsksTwice place.now.at least now seat.old seat.new result }
{
    match ask(rt, gate, seat, place, least, now) {
        Compaction::Lost => None,
        Compaction::Made { rows } => match ask(rt, gate, seat, place, u64::MAX, now) {
            Compaction::Lost => None,
            Compaction::Short { len } => {
                log.say(Notice::Compacted { rows, len });
                Some(next_least(len))
            }
            _ => Some(least),
        },
        Compaction::Kept => {
            log.say_lasting(Notice::NotCompacted);
            Some(least)
        }
        Compaction::Short { len: _ } => Some(least),
    }
}

/// One compaction at `now`, in milliseconds since 1970, if the file has at least `least` bytes; one that was made is
/// followed by a question for the length that it left, and both are said in the log. If the gate has no free place, nothing
/// is asked, as if the file were kept. Returns the least length for the next turn, or `None` if the store has lost its disk.
pub(crate) fn compact_turn<R: Wait, D: Disk>(
    rt: &R,
    gate: &GroupGate<Fenced<D>>,
    seat: &mut GroupSeat<Fenced<D>>,
    least: u64,
    now: u64,
    log: &EventLog,
) -> Option<u64>
    requires seat { IsSeatOf AllowsAll gate.now seat.old }
    requires early { now < 253370764800000 }
    ensures seat { IsSeatOf AllowsAll gate.now seat.new }
    ensures turn { IsTurn gate.now least now seat.old seat.new result }
{
    let Some(place) = gate.sit(seat) else {
        log.say_lasting(Notice::NotCompacted);
        return Some(least);
    };
    let next = ask_twice(rt, gate, seat, &place, least, now, log);
    gate.rise(seat, place);
    next
}
