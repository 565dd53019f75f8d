// Out of memory, as all crates report it.
use std::alloc::{AllocError, AllocFailed};
use thiserror::Error;

/// There was no memory for the answer. What the call leaves then is said in its own contract.
#[derive(Clone, Copy, Debug, Error)]
#[error("out of memory")]
pub struct OutOfMemory;

impl From<AllocError> for OutOfMemory {
    fn from(_: AllocError) -> OutOfMemory {
        OutOfMemory
    }
}

impl<T: Drop> From<AllocFailed<T>> for OutOfMemory {
    fn from(_: AllocFailed<T>) -> OutOfMemory {
        OutOfMemory
    }
}
