// Why a node isn't opened.
ghost use Rattle.std.specs.Prelude.{◌≡◌};
ghost use Rattle.tx_journal.specs.declared.error.JournalError.TheVariants as faults;
ghost use Rattle.placement_node.specs.declared.error.PlacementOpenError.TheVariants.{Journal};

use actor_names::OutOfMemory;
use thiserror::Error;
use tx_journal::JournalError;

/// Why a node isn't opened.
#[derive(Clone, Copy, Debug, Error)]
pub enum PlacementOpenError {
    /// The journal isn't opened; `Damaged` also at a payload that is no record of a placement, and `Full` also if there
    /// is no room for the record of the restart.
    #[error("{error}")]
    Journal { error: JournalError },
    /// The record at `index`, counted from 0, is the first bad one; its payload is at `offset` in the file.
    #[error("record {index} at {offset} is bad")]
    BadRecord { index: u64, offset: u64 },
}

impl From<OutOfMemory> for PlacementOpenError {
    ghost from_gives = { λ _ e. e ≡ Journal faults.OutOfMemory };

    fn from(_: OutOfMemory) -> PlacementOpenError {
        PlacementOpenError::Journal {
            error: JournalError::OutOfMemory,
        }
    }
}

impl From<JournalError> for PlacementOpenError {
    ghost from_gives = { λ error e. e ≡ Journal error };

    fn from(error: JournalError) -> PlacementOpenError {
        PlacementOpenError::Journal { error }
    }
}
