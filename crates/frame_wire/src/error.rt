// Why a stream isn't a stream of frames, and why a frame isn't written.
use lists_and_limits::OutOfMemory;
use thiserror::Error;

/// Why a stream gives no further frame, or why a frame isn't written. `at` is a place in the stream, in bytes from 0;
/// it is exact in the first 2^64 - 1 bytes, and counts no further.
#[derive(Clone, Copy, Debug, Error)]
pub enum FrameError {
    /// The byte `kind` at this place isn't a kind of frame.
    #[error("{kind} at byte {at} is no kind of frame")]
    BadKind { at: u64, kind: u8 },
    /// The field that begins here is malformed, or there are bytes here behind the last field of a frame.
    #[error("no field at byte {at}")]
    BadField { at: u64 },
    /// The frame has `n` bytes behind its length, more than 5,242,880.
    #[error("a frame of {n} bytes")]
    TooLong { n: u64 },
    /// There was no memory; nothing was taken or written.
    #[error("out of memory")]
    OutOfMemory,
}

impl From<OutOfMemory> for FrameError {
    ghost use Rattle.frame_wire.specs.declared.error.FrameError.TheVariants.{OutOfMemory};
    ghost use Rattle.std.specs.Prelude.{◌≡◌};

    ghost from_gives = { λ _ e. e ≡ OutOfMemory };

    fn from(_: OutOfMemory) -> FrameError {
        FrameError::OutOfMemory
    }
}
