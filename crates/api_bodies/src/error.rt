// Why a body isn't read.
ghost use Rattle.std.specs.Prelude.{◌≡◌};
ghost use Rattle.api_bodies.specs.Reading.{error_of};

use crate::fault::Fault;
use schedule_text::ScheduleError;
use thiserror::Error;

/// Why a body isn't read, in the order in which the causes are tested.
#[derive(Clone, Copy, Debug, Error)]
pub enum BodyError {
    /// The body isn't JSON of the stated form.
    #[error("malformed body")]
    Malformed,
    /// A number that would be kept isn't an integer of 64 bits, with or without sign.
    #[error("number is not a 64-bit integer")]
    OtherNumber,
    /// The operation with this index, counted from 0, has a key or a value that is too long; or there are more than
    /// 1,000 operations, and the index is 1000.
    #[error("operation {index}")]
    TooLarge { index: u64 },
    /// A text of the schedule has no reading.
    #[error("refused {fault}")]
    BadSchedule { fault: ScheduleError },
    /// There was no memory.
    #[error("out of memory")]
    OutOfMemory,
}

// What is answered.
pub(crate) fn error_of(fault: Fault) -> BodyError
    ensures { result ≡ error_of fault }
{
    match fault {
        Fault::Memory => BodyError::OutOfMemory,
        Fault::Refused { error } => error,
    }
}
