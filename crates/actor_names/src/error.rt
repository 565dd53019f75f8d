// Why a text isn't a name.
use lists_and_limits::OutOfMemory;
use std::alloc::AllocError;
use thiserror::Error;

/// Why a text isn't a name of its form, in the order in which the faults are tested.
#[derive(Clone, Copy, Debug, Error)]
pub enum NameError {
    /// The text, or the piece of it, is empty.
    #[error("an empty name")]
    Empty,
    /// The text, or the piece of it, has `n` bytes, more than its form allows.
    #[error("a name of {n} bytes")]
    TooLong { n: u64 },
    /// The byte at `at`, counted from 0 in the whole text, isn't allowed there; `at` is the length if a byte is
    /// missing.
    #[error("a bad byte at {at}")]
    BadByte { at: u64 },
    /// There was no memory for the name.
    #[error("out of memory")]
    OutOfMemory,
}

impl From<AllocError> for NameError {
    ghost use Rattle.actor_names.specs.declared.error.NameError.TheVariants.{OutOfMemory};
    ghost use Rattle.std.specs.Prelude.{◌≡◌};

    ghost from_gives = { λ _ e. e ≡ OutOfMemory };

    fn from(_: AllocError) -> NameError {
        NameError::OutOfMemory
    }
}

impl From<OutOfMemory> for NameError {
    ghost use Rattle.actor_names.specs.declared.error.NameError.TheVariants.{OutOfMemory};
    ghost use Rattle.std.specs.Prelude.{◌≡◌};

    ghost from_gives = { λ _ e. e ≡ OutOfMemory };

    fn from(_: OutOfMemory) -> NameError {
        NameError::OutOfMemory
    }
}
