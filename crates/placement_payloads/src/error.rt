// Why a payload isn't read.
ghost use Rattle.std.specs.Prelude.{◌≡◌};
ghost use Rattle.placement_payloads.specs.declared.error.PayloadError.TheVariants.{OutOfMemory};
ghost use Rattle.placement_payloads.specs.Gives.{payload_error};

use std::alloc::{AllocError, AllocFailed};
use thiserror::Error;
use wire_fields::Fault;

/// Why a payload isn't read.
#[derive(Clone, Copy, Debug, Error)]
pub enum PayloadError {
    /// The bytes are the spelling of no payload.
    #[error("no payload of the placement")]
    NoReading,
    /// There was no memory for the entries.
    #[error("out of memory")]
    OutOfMemory,
}

impl From<AllocError> for PayloadError {
    ghost from_gives = { λ _ e. e ≡ OutOfMemory };

    fn from(_: AllocError) -> PayloadError {
        PayloadError::OutOfMemory
    }
}

impl<T: Drop> From<AllocFailed<T>> for PayloadError {
    ghost from_gives = { λ _ e. e ≡ OutOfMemory };

    fn from(_: AllocFailed<T>) -> PayloadError {
        PayloadError::OutOfMemory
    }
}

impl From<Fault> for PayloadError {
    ghost from_gives = { λ fault e. e ≡ payload_error fault };

    fn from(fault: Fault) -> PayloadError {
        match fault {
            Fault::Memory => PayloadError::OutOfMemory,
            Fault::Field { .. } => PayloadError::NoReading,
        }
    }
}
