// Why a field isn't read.
ghost use Rattle.std.specs.Prelude.{◌≡◌};
ghost use Rattle.wire_fields.specs.declared.fault.Fault.TheVariants.{Memory};
ghost use Rattle.wire_fields.specs.Names.{name_fault};

use actor_names::NameError;
use lists_and_limits::OutOfMemory;
use std::alloc::{AllocError, AllocFailed};

/// Why a field isn't read: there is no memory for its value, or the bytes aren't a field. `left` is the number of bytes
/// from the first byte of the first field that fails to the end.
#[derive(Clone, Copy)]
pub enum Fault {
    Memory,
    Field { left: usize },
}

impl From<AllocError> for Fault {
    ghost from_gives = { λ _ e. e ≡ Memory };

    fn from(_: AllocError) -> Fault {
        Fault::Memory
    }
}

impl<T: Drop> From<AllocFailed<T>> for Fault {
    ghost from_gives = { λ _ e. e ≡ Memory };

    fn from(_: AllocFailed<T>) -> Fault {
        Fault::Memory
    }
}

impl From<OutOfMemory> for Fault {
    ghost from_gives = { λ _ e. e ≡ Memory };

    fn from(_: OutOfMemory) -> Fault {
        Fault::Memory
    }
}

/// The fault of a name that its reader refused.
pub fn name_fault(error: NameError, left: usize) -> Fault
    ensures { result ≡ name_fault error left }
{
    match error {
        NameError::OutOfMemory => Fault::Memory,
        _ => Fault::Field { left },
    }
}
