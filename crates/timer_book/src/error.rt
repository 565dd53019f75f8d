// Why a timer isn't set.
use actor_names::OutOfMemory;
use thiserror::Error;

/// Why a call of a book is refused, in the order in which the causes are tested; the book is as before.
#[derive(Clone, Copy, Debug, Error)]
pub enum TimerError {
    /// The actor has 1,024 timers, and none of this name.
    #[error("the actor has 1024 timers")]
    Full,
    /// 2^62 registration numbers were drawn, and there are no more.
    #[error("no registration number is left")]
    Spent,
    /// Out of memory.
    #[error("out of memory")]
    OutOfMemory,
}

impl From<OutOfMemory> for TimerError {
    ghost use Rattle.timer_book.specs.declared.error.TimerError.TheVariants.{OutOfMemory};
    ghost use Rattle.std.specs.Prelude.{◌≡◌};

    ghost from_gives = { λ _ e. e ≡ OutOfMemory };

    fn from(_: OutOfMemory) -> TimerError {
        TimerError::OutOfMemory
    }
}
