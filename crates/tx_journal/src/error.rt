// The errors of a journal.
ghost use Rattle.std.specs.Prelude.{◌≡◌};
ghost use Rattle.tx_journal.specs.Journal.{as_journal};

use actor_ports::PortError;
use thiserror::Error;

/// Why a journal didn't do what was asked.
#[derive(Clone, Copy, Debug, PartialEq, Eq, Error)]
pub enum JournalError {
    /// The disk failed; the journal must be opened again.
    #[error("the disk failed")]
    DiskFault,
    /// The file isn't a journal, or it is damaged; `offset` is the place in bytes where it ceases to be one.
    #[error("damaged at {offset}")]
    Damaged { offset: u64 },
    /// The payload has `n` bytes, which is more than a record can have.
    #[error("payload of {n} bytes")]
    TooLong { n: u64 },
    /// The file has `len` bytes: there is no room for the record, or the file is too long to be opened.
    #[error("journal of {len} bytes is full")]
    Full { len: u64 },
    /// An earlier call met a disk fault; the journal must be opened again.
    #[error("journal must be opened again")]
    Reopen,
    /// No compaction is under way.
    #[error("no compaction is under way")]
    NotStarted,
    /// The journal was opened with one disk, and can't be compacted.
    #[error("journal of one disk")]
    OneDisk,
    /// The live file has the Generation `count`, and there can be no higher one.
    #[error("number {count} is the last")]
    Spent { count: u64 },
    /// There was no memory.
    #[error("out of memory")]
    OutOfMemory,
}

impl From<PortError> for JournalError {
    ghost from_gives = { λ x e. e ≡ as_journal x };

    fn from(error: PortError) -> JournalError {
        match error {
            PortError::Failed => JournalError::DiskFault,
            PortError::OutOfMemory => JournalError::OutOfMemory,
        }
    }
}
