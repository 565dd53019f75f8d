// How an opening that was refused ends the command.
ghost use Rattle.std.specs.Prelude.{◌≡◌, ◌≢◌};
ghost use Rattle.placement_command.specs.Runs.{end_by, end_of};

use crate::command::PlacementEnd;
use placement_node::PlacementOpenError;
use tx_journal::JournalError;

// The same of an error of the journal.
fn end_by(error: JournalError) -> PlacementEnd
    ensures is { result ≡ end_by error }
    ensures disk { result ≡ PlacementEnd.DiskFault → error ≡ JournalError.DiskFault }
    ensures others { (result ≢ PlacementEnd.PortFault) × (result ≢ PlacementEnd.Done) }
{
    match error {
        JournalError::DiskFault => PlacementEnd::DiskFault,
        JournalError::Damaged { offset } => PlacementEnd::Damaged { offset },
        JournalError::Full { len } => PlacementEnd::Damaged { offset: len },
        JournalError::TooLong { .. }
        | JournalError::Reopen
        | JournalError::NotStarted
        | JournalError::OneDisk
        | JournalError::Spent { .. }
        | JournalError::OutOfMemory => PlacementEnd::OutOfMemory,
    }
}

/// How the command ends if the placement isn't opened. A journal that has no room for the record of the restart is
/// damaged at its length.
pub(crate) fn end_of(error: PlacementOpenError) -> PlacementEnd
    ensures is { result ≡ end_of error }
    ensures disk { result ≡ PlacementEnd.DiskFault → error ≡ PlacementOpenError.Journal JournalError.DiskFault }
    ensures others { (result ≢ PlacementEnd.PortFault) × (result ≢ PlacementEnd.Done) }
{
    match error {
        PlacementOpenError::BadRecord { index: _, offset } => PlacementEnd::Damaged { offset },
        PlacementOpenError::Journal { error } => end_by(error),
    }
}
