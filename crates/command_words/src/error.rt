// Why words give no command.
use std::alloc::{AllocError, AllocFailed};
use thiserror::Error;

/// Why words give no command.
#[derive(Clone, Copy, Debug, Error)]
pub enum WordsError {
    /// The words have no reading.
    #[error("the words have no reading")]
    Usage,
    /// There was no memory to read the words.
    #[error("out of memory")]
    OutOfMemory,
}

impl From<AllocError> for WordsError {
    ghost use Rattle.command_words.specs.declared.error.WordsError.TheVariants.{OutOfMemory};
    ghost use Rattle.std.specs.Prelude.{◌≡◌};

    ghost from_gives = { λ _ e. e ≡ OutOfMemory };

    fn from(_: AllocError) -> WordsError {
        WordsError::OutOfMemory
    }
}

impl<T: Drop> From<AllocFailed<T>> for WordsError {
    ghost use Rattle.command_words.specs.declared.error.WordsError.TheVariants.{OutOfMemory};
    ghost use Rattle.std.specs.Prelude.{◌≡◌};

    ghost from_gives = { λ _ e. e ≡ OutOfMemory };

    fn from(_: AllocFailed<T>) -> WordsError {
        WordsError::OutOfMemory
    }
}
