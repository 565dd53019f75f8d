// Frames read from a stream that comes in pieces.
ghost use Rattle.std.specs.Prelude.{◌≡◌, ◌≤◌, ◌+◌, ◌++◌, ◌∷◌, [], List, Ok, Err, None, length, drop, IfOk, IfSome, OnErr, MatchOption};
ghost use Rattle.frame_wire.specs.declared.frame.Frame.{Frame};
ghost use Rattle.frame_wire.specs.Streams.{ReaderState, new_reader, Feeds, StreamOf, frames_bytes, outcome, look, place, LooksRight};

use crate::error::FrameError;
use crate::frame::Frame;
use crate::look::{Found, look, place};
use lists_and_limits::OutOfMemory;
use std::alloc::Global;
use std::collections::VecDeque;
use std::marker::Model;

/// Reads the frames of a stream, however it is cut into pieces. It keeps the bytes of the frame that has begun, and
/// the frames that weren't asked for yet.
#[derive(Drop)]
pub struct FrameReader {
    alloc: Global,
    ready: VecDeque<Frame>,
    rest: Vec<u8>,
    at: u64,
    failed: Option<FrameError>,
}

impl Model for FrameReader {
    ghost use Rattle.frame_wire.specs.Streams.{ReaderState};

    ghost Value = { ReaderState };

    ghost view = { λ a. record { ready = a.ready.items; rest = a.rest.items; at = a.at; failed = a.failed } };
}

// What was taken from the start of some bytes: how many bytes the whole frames have, and the fault behind them, if any.
#[derive(Drop)]
struct Front {
    used: usize,
    end: Option<FrameError>,
}

// Looks behind the first `used` bytes.
fn look_behind(alloc: Global, at: u64, bytes: &[u8], used: usize) -> Result<Found, OutOfMemory>
    requires { used ≤ length bytes.now }
    ensures is { IfOk result (λ found. found ≡ look (place at used) (drop used bytes.now)) }
    ensures right { IfOk result (λ found. LooksRight (drop used bytes.now) found) }
{
    look(alloc, place(at, used), &bytes[used..])
}

// Takes the frames at the start of bytes that are at a place of a stream, up to the first one that isn't whole.
fn take_frames(
    alloc: Global,
    at: u64,
    bytes: &[u8],
    frames: &mut VecDeque<Frame>,
) -> Result<Front, OutOfMemory>
    requires { frames.old.items ≡ [] }
    ensures used { IfOk result (λ front. (front.used ≡ length (frames_bytes frames.new.items)) × (front.used ≤ length bytes.now)) }
    ensures stream { IfOk result (λ front. StreamOf at bytes.now frames.new.items (drop front.used bytes.now) front.end) }
{
    let mut used = 0;
    while used <= bytes.len() {
        match look_behind(alloc, at, bytes, used)? {
            Found::More => return Ok(Front { used, end: None }),
            Found::Bad { error } => {
                return Ok(Front {
                    used,
                    end: Some(error),
                });
            }
            Found::Whole { frame, len } => {
                frames.push_back(frame)?;
                used += len;
            }
        }
    }
    unreachable!()
}

// Adds a piece to the rest of a stream, and takes the frames that it completes. All or nothing.
fn take_piece(
    alloc: Global,
    at: u64,
    rest: &mut Vec<u8>,
    ready: &mut VecDeque<Frame>,
    piece: &[u8],
) -> Result<Front, OutOfMemory>
    ensures taken { IfOk result (λ front. (frames : List Frame) × (ready.new.items ≡ ready.old.items ++ frames) × (front.used ≡ length (frames_bytes frames)) × StreamOf at (rest.old.items ++ piece.now) frames rest.new.items front.end) }
    ensures same { OnErr result ((rest.new.items ≡ rest.old.items) × (ready.new.items ≡ ready.old.items)) }
{
    let before = rest.len();
    if rest.extend_from_slice(piece).is_err() {
        return Err(OutOfMemory);
    }
    let mut frames = VecDeque::new(alloc);
    let Ok(front) = take_frames(alloc, at, rest.as_slice(), &mut frames) else {
        rest.truncate(before);
        return Err(OutOfMemory);
    };
    if ready.append(&mut frames).is_err() {
        rest.truncate(before);
        return Err(OutOfMemory);
    }
    drop(rest.drain(..front.used));
    Ok(front)
}

// The answer to a piece.
fn outcome(end: Option<FrameError>) -> Result<(), FrameError>
    ensures { result ≡ outcome end }
{
    match end {
        None => Ok(()),
        Some(error) => Err(error),
    }
}

impl FrameReader {
    /// A reader of a stream of which nothing has come yet. It takes no memory.
    pub fn new(alloc: Global) -> FrameReader
        ensures { result ≡ new_reader }
    {
        FrameReader {
            alloc,
            ready: VecDeque::new(alloc),
            rest: Vec::new(alloc),
            at: 0,
            failed: None,
        }
    }

    /// Takes the next piece of the stream. After `OutOfMemory` the piece wasn't taken. Any other error is a fault of
    /// the stream: each later call answers it again, and the frames before it can still be asked for.
    pub fn feed(&mut self, piece: &[u8]) -> Result<(), FrameError>
        ensures fed { self.old.failed ≡ None → Feeds self.old piece.now self.new result }
        ensures again { IfSome self.old.failed (λ error. (result ≡ Err error) × (self.new ≡ self.old)) }
    {
        if let Some(error) = self.failed {
            return Err(error);
        }
        let front = take_piece(self.alloc, self.at, &mut self.rest, &mut self.ready, piece)?;
        self.at = place(self.at, front.used);
        self.failed = front.end;
        outcome(front.end)
    }

    /// The first frame that is ready; `None` exactly if there is none. It takes no memory.
    pub fn next(&mut self) -> Option<Frame>
        ensures none { MatchOption result (self.old.ready ≡ []) (λ frame. self.old.ready ≡ frame ∷ self.new.ready) }
        ensures same { (self.new.rest ≡ self.old.rest) × (self.new.at ≡ self.old.at) × (self.new.failed ≡ self.old.failed) }
        ensures empty { result ≡ None → self.new ≡ self.old }
    {
        self.ready.pop_front()
    }
}
