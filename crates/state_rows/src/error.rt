// Why a transaction is refused.
use actor_names::OutOfMemory;
use thiserror::Error;

/// Why a transaction is refused. Its length is tested first, and then each operation, its key before its value; the
/// first fault counts. `op` is the index of the operation, counted from 0.
#[derive(Clone, Copy, Debug, Error)]
pub enum StateError {
    /// There are `n` operations, more than 1,000.
    #[error("{n} operations")]
    TooManyOps { n: u64 },
    /// The key has `n` bytes: none, or more than 256.
    #[error("a key of {n} bytes in operation {op}")]
    KeyTooLong { op: u64, n: u64 },
    /// The value has `n` bytes, more than 4,194,304.
    #[error("a value of {n} bytes in operation {op}")]
    ValueTooLong { op: u64, n: u64 },
    /// There was no memory for the transaction.
    #[error("out of memory")]
    OutOfMemory,
}

impl From<OutOfMemory> for StateError {
    ghost use Rattle.state_rows.specs.declared.error.StateError.TheVariants.{OutOfMemory};
    ghost use Rattle.std.specs.Prelude.{◌≡◌};

    ghost from_gives = { λ _ e. e ≡ OutOfMemory };

    fn from(_: OutOfMemory) -> StateError {
        StateError::OutOfMemory
    }
}
