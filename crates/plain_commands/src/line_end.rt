// Why a line ends the replay.
ghost use Rattle.std.specs.Prelude.{◌≡◌};
ghost use Rattle.plain_commands.specs.EndsTold.{EndsAt};

use world_events::WorldError;

/// Why a line ends the replay.
#[derive(Clone, Copy)]
pub(crate) enum LineEnd {
    /// The line is refused at this column.
    Refused { column: u64 },
    /// There was no memory for the line.
    OutOfMemory,
}

/// Why a refused event ends the replay: a wrong call number is refused at its column, any other event at column 1.
pub(crate) fn line_end_of(error: WorldError, column: u64) -> LineEnd
    ensures { EndsAt error column result }
{
    match error {
        WorldError::WrongNumber { .. } => LineEnd::Refused { column },
        WorldError::Spent { .. } | WorldError::Dishonest { .. } => LineEnd::Refused { column: 1 },
        WorldError::OutOfMemory => LineEnd::OutOfMemory,
    }
}
