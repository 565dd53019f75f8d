// What some bytes begin with.
ghost use Rattle.std.specs.Prelude.{◌≡◌, ◌+◌, ◌≤◌, None, length, take, IfOk};
ghost use Rattle.std.specs.Int.{w32, from_be_bytes};
ghost use Rattle.frame_wire.specs.Streams.{Takes};
ghost use Rattle.exchanges.specs.FrameExchanges.{BeginsWith, front_of, fault_place};

use frame_wire::{Frame, FrameError, FrameReader};
use lists_and_limits::OutOfMemory;
use std::alloc::Global;

/// What bytes begin with: a frame, a fault at this place, or neither yet.
#[derive(Drop)]
pub(crate) enum Front {
    More,
    Whole { frame: Frame },
    Faulty { at: u64 },
}

// The place of a fault.
fn fault_place(error: FrameError) -> u64
    ensures { result ≡ fault_place error }
{
    match error {
        FrameError::BadKind { at, .. } => at,
        FrameError::BadField { at } => at,
        FrameError::TooLong { .. } | FrameError::OutOfMemory => 0,
    }
}

// What bytes begin with if no frame does.
fn front_of(fault: Option<FrameError>) -> Front
    ensures { result ≡ front_of fault }
{
    match fault {
        None => Front::More,
        Some(error) => Front::Faulty {
            at: fault_place(error),
        },
    }
}

// Gives the reader the bytes, and answers the fault in them, if there is one.
fn feed(reader: &mut FrameReader, bytes: &[u8]) -> Result<Option<FrameError>, OutOfMemory>
    requires { reader.old.failed ≡ None }
    ensures { IfOk result (λ fault. Takes reader.old bytes.now reader.new fault) }
{
    match reader.feed(bytes) {
        Ok(()) => Ok(None),
        Err(FrameError::OutOfMemory) => Err(OutOfMemory),
        Err(error) => Ok(Some(error)),
    }
}

/// What the bytes begin with.
pub(crate) fn look_front(alloc: Global, bytes: &[u8]) -> Result<Front, OutOfMemory>
    ensures { IfOk result (λ front. BeginsWith bytes.now front) }
{
    let mut reader = FrameReader::new(alloc);
    let fault = feed(&mut reader, bytes)?;
    match reader.next() {
        Some(frame) => Ok(Front::Whole { frame }),
        None => Ok(front_of(fault)),
    }
}

/// How many bytes the frame has that begins with these, by its length.
pub(crate) fn frame_len(bytes: &[u8]) -> usize
    requires { 4 ≤ length bytes.now }
    ensures { result ≡ 4 + from_be_bytes w32 (take 4 bytes.now) }
{
    let (front, _) = bytes.split_at(4);
    let n = u32::from_be_bytes([front[0], front[1], front[2], front[3]]);
    4 + n as usize
}
