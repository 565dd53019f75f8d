// Why a payload isn't read.
ghost use Rattle.std.specs.Prelude.{◌≡◌};
ghost use Rattle.store_payloads.specs.declared.error.PayloadError.TheVariants.{OutOfMemory};
ghost use Rattle.store_payloads.specs.Gives.{of_fault, of_frame};

use frame_wire::FrameError;
use std::alloc::{AllocError, AllocFailed};
use thiserror::Error;
use wire_fields::Fault;

/// Why a payload isn't read.
#[derive(Clone, Copy, Debug, Error)]
pub enum PayloadError {
    /// The bytes are the spelling of no payload.
    #[error("no payload of the store")]
    NoReading,
    /// There was no memory for what it says.
    #[error("out of memory")]
    OutOfMemory,
}

impl From<AllocError> for PayloadError {
    ghost from_gives = { λ _ e. e ≡ OutOfMemory };

    fn from(_: AllocError) -> PayloadError {
        PayloadError::OutOfMemory
    }
}

impl<T: Drop> From<AllocFailed<T>> for PayloadError {
    ghost from_gives = { λ _ e. e ≡ OutOfMemory };

    fn from(_: AllocFailed<T>) -> PayloadError {
        PayloadError::OutOfMemory
    }
}

impl From<Fault> for PayloadError {
    ghost from_gives = { λ fault e. e ≡ of_fault fault };

    fn from(fault: Fault) -> PayloadError {
        match fault {
            Fault::Memory => PayloadError::OutOfMemory,
            Fault::Field { .. } => PayloadError::NoReading,
        }
    }
}

impl From<FrameError> for PayloadError {
    ghost from_gives = { λ error e. e ≡ of_frame error };

    fn from(error: FrameError) -> PayloadError {
        match error {
            FrameError::OutOfMemory => PayloadError::OutOfMemory,
            _ => PayloadError::NoReading,
        }
    }
}
