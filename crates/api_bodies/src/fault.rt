// Why a body isn't read, while it is being read.
ghost use Rattle.std.specs.Prelude.{◌≡◌};
ghost use Rattle.api_bodies.specs.declared.fault.Fault.TheVariants.{Memory};

use crate::error::BodyError;
use lists_and_limits::OutOfMemory;
use std::alloc::{AllocError, AllocFailed};

/// There is no memory for what was read, or the body is refused.
#[derive(Clone, Copy)]
pub(crate) enum Fault {
    Memory,
    Refused { error: BodyError },
}

impl From<AllocError> for Fault {
    ghost from_gives = { λ _ e. e ≡ Memory };

    fn from(_: AllocError) -> Fault {
        Fault::Memory
    }
}

impl<T: Drop> From<AllocFailed<T>> for Fault {
    ghost from_gives = { λ _ e. e ≡ Memory };

    fn from(_: AllocFailed<T>) -> Fault {
        Fault::Memory
    }
}

impl From<OutOfMemory> for Fault {
    ghost from_gives = { λ _ e. e ≡ Memory };

    fn from(_: OutOfMemory) -> Fault {
        Fault::Memory
    }
}

/// The body hasn't its form.
pub(crate) fn malformed() -> Fault
    ensures { result ≡ Fault.Refused BodyError.Malformed }
{
    Fault::Refused {
        error: BodyError::Malformed,
    }
}
