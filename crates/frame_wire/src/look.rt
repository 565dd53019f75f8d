// What is at the start of some bytes.
ghost use Rattle.std.specs.Prelude.{◌≡◌, ◌≤◌, length, IfOk};
ghost use Rattle.frame_wire.specs.Streams.{place, look, look_length, look_kind, look_whole, LooksRight};
ghost use Rattle.frame_wire.specs.Frames.{whole_frame};

use crate::error::FrameError;
use crate::fields::whole_frame;
use crate::frame::Frame;
use crate::kind::Kind;
use lists_and_limits::OutOfMemory;
use std::alloc::Global;
use wire_fields::Fault;

/// The most bytes of a frame behind its length.
pub const MOST_PAYLOAD: u32 = 5_242_880;

// What is at the start of some bytes: neither a whole frame nor a fault, or a frame of `len` bytes, or a fault.
#[derive(Drop)]
pub(crate) enum Found {
    More,
    Whole { frame: Frame, len: usize },
    Bad { error: FrameError },
}

// The place `n` bytes on, or the last place if that is past it.
pub(crate) fn place(at: u64, n: usize) -> u64
    ensures { result ≡ place at n }
{
    let n = n as u64;
    if n > u64::MAX - at { u64::MAX } else { at + n }
}

// The frame whose kind and fields are exactly these bytes, behind a length at this place.
fn look_whole(alloc: Global, at: u64, bytes: &[u8]) -> Result<Found, OutOfMemory>
    requires { length bytes.now ≤ 5242880 }
    ensures { IfOk result (λ found. found ≡ look_whole at (length bytes.now) (whole_frame bytes.now)) }
{
    let len = 4 + bytes.len();
    match whole_frame(alloc, bytes) {
        Ok(frame) => Ok(Found::Whole { frame, len }),
        Err(Fault::Memory) => Err(OutOfMemory),
        Err(Fault::Field { left }) => Ok(Found::Bad {
            error: FrameError::BadField {
                at: place(at, len.saturating_sub(left)),
            },
        }),
    }
}

// What is behind a length.
fn look_kind(alloc: Global, at: u64, n: usize, rest: &[u8]) -> Result<Found, OutOfMemory>
    requires { n ≤ 5242880 }
    ensures { IfOk result (λ found. found ≡ look_kind at n rest.now) }
{
    let [kind, ..] = *rest else {
        return Ok(Found::More);
    };
    if Kind::of(kind).is_none() {
        return Ok(Found::Bad {
            error: FrameError::BadKind {
                at: place(at, 4),
                kind,
            },
        });
    }
    if rest.len() < n {
        return Ok(Found::More);
    }
    look_whole(alloc, at, &rest[..n])
}

// Looks behind a length.
fn look_length(alloc: Global, at: u64, n: u32, rest: &[u8]) -> Result<Found, OutOfMemory>
    ensures { IfOk result (λ found. found ≡ look_length at n rest.now) }
{
    if n == 0 {
        return Ok(Found::Bad {
            error: FrameError::BadField { at },
        });
    }
    if n > MOST_PAYLOAD {
        return Ok(Found::Bad {
            error: FrameError::TooLong { n: n as u64 },
        });
    }
    look_kind(alloc, at, n as usize, rest)
}

// Looks at the start of some bytes.
#[tactic(auto, unfolding(crate::specs::Streams::look))]
fn look_front(alloc: Global, at: u64, bytes: &[u8]) -> Result<Found, OutOfMemory>
    ensures { IfOk result (λ found. found ≡ look at bytes.now) }
{
    if bytes.len() < 4 {
        return Ok(Found::More);
    }
    let (front, rest) = bytes.split_at(4);
    let n = u32::from_be_bytes([front[0], front[1], front[2], front[3]]);
    look_length(alloc, at, n, rest)
}

// Looks at the start of the bytes that are at this place of a stream.
pub(crate) fn look(alloc: Global, at: u64, bytes: &[u8]) -> Result<Found, OutOfMemory>
    ensures is { IfOk result (λ found. found ≡ look at bytes.now) }
    ensures right { IfOk result (λ found. LooksRight bytes.now found) }
{
    look_front(alloc, at, bytes)
}
