// Why the store gave no answer.
use thiserror::Error;

/// Why an exchange with the store gave no answer.
#[derive(Clone, Copy, Debug, Error)]
pub enum StoreEnd {
    /// The dial or the link failed; the dialler's count of faults has risen.
    #[error("link failed")]
    Fault,
    /// What came back isn't a frame, or isn't an answer that fits the command.
    #[error("unreadable reply")]
    Unreadable,
    /// There was no memory.
    #[error("out of memory")]
    OutOfMemory,
}
