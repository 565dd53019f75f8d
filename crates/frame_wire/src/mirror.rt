// What a placement and its standby say to each other.
use lists_and_limits::Bytes;

/// The most bytes of one write: 1,048,576.
pub const MOST_PIECE: u32 = 1_048_576;

/// A call on the disk of a standby. Places and lengths are in bytes from the start of the file.
#[derive(Debug, Drop)]
pub enum MirrorCommand {
    /// Write these bytes, at most 1,048,576, over those from `at` on.
    Write { at: u64, bytes: Bytes },
    /// Cut the file to `len` bytes.
    Cut { len: u64 },
    /// Put all changes on the disk.
    Sync,
}

/// The answer to a call on the disk of a standby.
#[derive(Clone, Copy, Debug, Drop)]
pub enum MirrorAnswer {
    /// The call was done.
    Done,
    /// The call failed, and no further one is done.
    Fault,
}
