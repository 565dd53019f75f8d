// Why a text isn't a schedule.
use std::alloc::AllocError;
use thiserror::Error;

/// Why a text isn't a moment or a schedule, in the order in which the faults of one text are found. Places are in
/// bytes from 0; a text that ends too early has its fault at its length.
#[derive(Clone, Copy, Debug, Error)]
pub enum ScheduleError {
    /// The byte at `at` can't be there in a moment, or the field that begins at `at` is out of its range.
    #[error("a bad moment at {at}")]
    BadMoment { at: u64 },
    /// The byte at `at` can't be there in a duration or period.
    #[error("a bad duration at {at}")]
    BadDuration { at: u64 },
    /// A duration is below 0.
    #[error("a negative duration")]
    Negative,
    /// A period has 0 repetitions.
    #[error("zero repetitions")]
    ZeroRepeats,
    /// A moment, a duration, a count or a sum is out of its range.
    #[error("out of range")]
    OutOfRange,
    /// There was no memory for the answer.
    #[error("out of memory")]
    OutOfMemory,
}

impl From<AllocError> for ScheduleError {
    ghost use Rattle.schedule_text.specs.declared.error.ScheduleError.TheVariants.{OutOfMemory};
    ghost use Rattle.std.specs.Prelude.{◌≡◌};

    ghost from_gives = { λ _ e. e ≡ OutOfMemory };

    fn from(_: AllocError) -> ScheduleError {
        ScheduleError::OutOfMemory
    }
}
