// How an opening that was refused ends the command.
ghost use Rattle.std.specs.Prelude.{◌≡◌, ◌≢◌};
ghost use Rattle.store_command.specs.Runs.{end_of};

use crate::command::StoreEnd;
use tx_journal::JournalError;

/// How the command ends if the store isn't opened. A file that is too long to be opened is damaged at its length, and so
/// is one of the first format for whose contents a new file has no room, at the length of that file or of the row.
pub(crate) fn end_of(error: JournalError) -> StoreEnd
    ensures is { result ≡ end_of error }
    ensures disk { result ≡ StoreEnd.DiskFault → error ≡ JournalError.DiskFault }
    ensures others { (result ≢ StoreEnd.PortFault) × (result ≢ StoreEnd.Done) }
{
    match error {
        JournalError::DiskFault => StoreEnd::DiskFault,
        JournalError::Damaged { offset } => StoreEnd::Damaged { offset },
        JournalError::Full { len } => StoreEnd::Damaged { offset: len },
        JournalError::TooLong { n } => StoreEnd::Damaged { offset: n },
        JournalError::Reopen
        | JournalError::NotStarted
        | JournalError::OneDisk
        | JournalError::Spent { .. }
        | JournalError::OutOfMemory => StoreEnd::OutOfMemory,
    }
}
