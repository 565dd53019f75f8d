// Why a request isn't read, while it is being read.
ghost use Rattle.std.specs.Prelude.{◌≡◌};
ghost use Rattle.actors_api.specs.declared.fault.Fault.TheVariants.{Memory};
ghost use Rattle.actors_api.specs.Reading.{refusal_of, name_fault, body_fault};

use crate::refusal::{ApiName, ApiRefusal};
use actor_names::NameError;
use api_bodies::BodyError;
use lists_and_limits::OutOfMemory;
use std::alloc::{AllocError, AllocFailed};

/// There is no memory for what was read, or the request is refused.
#[derive(Clone, Copy)]
pub(crate) enum Fault {
    Memory,
    Refused { refusal: ApiRefusal },
}

impl From<AllocError> for Fault {
    ghost from_gives = { λ _ e. e ≡ Memory };

    fn from(_: AllocError) -> Fault {
        Fault::Memory
    }
}

impl<T: Drop> From<AllocFailed<T>> for Fault {
    ghost from_gives = { λ _ e. e ≡ Memory };

    fn from(_: AllocFailed<T>) -> Fault {
        Fault::Memory
    }
}

impl From<OutOfMemory> for Fault {
    ghost from_gives = { λ _ e. e ≡ Memory };

    fn from(_: OutOfMemory) -> Fault {
        Fault::Memory
    }
}

/// What is answered.
pub(crate) fn refusal_of(fault: Fault) -> ApiRefusal
    ensures { result ≡ refusal_of fault }
{
    match fault {
        Fault::Memory => ApiRefusal::OutOfMemory,
        Fault::Refused { refusal } => refusal,
    }
}

/// The fault of a name that its reader refused.
pub(crate) fn name_fault(name: ApiName, error: NameError) -> Fault
    ensures { result ≡ name_fault name error }
{
    match error {
        NameError::OutOfMemory => Fault::Memory,
        _ => Fault::Refused {
            refusal: ApiRefusal::BadName { name },
        },
    }
}

/// The fault of a body that its reader refused.
pub(crate) fn body_fault(error: BodyError) -> Fault
    ensures { result ≡ body_fault error }
{
    let refusal = match error {
        BodyError::Malformed => ApiRefusal::MalformedBody,
        BodyError::OtherNumber => ApiRefusal::OtherNumber,
        BodyError::TooLarge { index } => ApiRefusal::TooLarge { index },
        BodyError::BadSchedule { fault } => ApiRefusal::BadSchedule { fault },
        BodyError::OutOfMemory => return Fault::Memory,
    };
    Fault::Refused { refusal }
}
