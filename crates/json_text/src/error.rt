// Why a body gives no value.
use thiserror::Error;

/// Why a body gives no value.
#[derive(Clone, Copy, Debug, Error)]
pub enum JsonError {
    /// The bytes aren't UTF-8, aren't a JSON text, nest deeper than 127, or have a number beyond every float.
    #[error("no JSON")]
    NotJson,
    /// There was no memory for the value.
    #[error("out of memory")]
    OutOfMemory,
}
