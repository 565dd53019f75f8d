// Why no table is built.
use actor_names::{Node, OutOfMemory};
use std::alloc::{AllocError, AllocFailed};
use thiserror::Error;

/// Why no table is built, in the order in which the causes are tested.
#[derive(Clone, Copy, Debug, Error)]
pub enum TableError {
    /// There are `n` hosts, more than 256.
    #[error("{n} members")]
    TooManyMembers { n: u64 },
    /// The host of `node`, the first such one in the given order, has `n` types, more than 32.
    #[error("{n} types of a member")]
    TooManyTypes { node: Node, n: u64 },
    /// Two hosts have the node `name`; it is the first node in the given order that came before.
    #[error("two members of one node")]
    SameNode { name: Node },
    /// The host of `node`, the first such one in the given order, is of another space than the table.
    #[error("a member of another space")]
    OtherSpace { node: Node },
    /// There was no memory for the table.
    #[error("out of memory")]
    OutOfMemory,
}

impl From<OutOfMemory> for TableError {
    ghost use Rattle.place_table.specs.declared.error.TableError.TheVariants.{OutOfMemory};
    ghost use Rattle.std.specs.Prelude.{◌≡◌};

    ghost from_gives = { λ _ e. e ≡ OutOfMemory };

    fn from(_: OutOfMemory) -> TableError {
        TableError::OutOfMemory
    }
}

impl From<AllocError> for TableError {
    ghost use Rattle.place_table.specs.declared.error.TableError.TheVariants.{OutOfMemory};
    ghost use Rattle.std.specs.Prelude.{◌≡◌};

    ghost from_gives = { λ _ e. e ≡ OutOfMemory };

    fn from(_: AllocError) -> TableError {
        TableError::OutOfMemory
    }
}

impl<T: Drop> From<AllocFailed<T>> for TableError {
    ghost use Rattle.place_table.specs.declared.error.TableError.TheVariants.{OutOfMemory};
    ghost use Rattle.std.specs.Prelude.{◌≡◌};

    ghost from_gives = { λ _ e. e ≡ OutOfMemory };

    fn from(_: AllocFailed<T>) -> TableError {
        TableError::OutOfMemory
    }
}
