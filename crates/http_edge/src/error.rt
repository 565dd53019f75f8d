// Why a connection gives no message.
ghost use Rattle.std.specs.Prelude.{◌≡◌};
ghost use Rattle.http_edge.specs.Requests.{edge_of};

use actor_ports::PortError;
use thiserror::Error;

/// Why a connection gave no further message, in the order in which it is tested.
#[derive(Clone, Copy, Debug, Error)]
pub enum EdgeError {
    /// What came isn't a head or a trailer part, whatever follows; or a reply's status is below 200.
    #[error("malformed head")]
    BadHead,
    /// 16,384 bytes came without a whole head, chunk line or trailer part.
    #[error("head above 16384 bytes")]
    HeadTooLong,
    /// The head or the trailer part has more than 64 fields.
    #[error("more than 64 fields")]
    TooManyFields,
    /// The body has a transfer coding that can't be read.
    #[error("chunked body")]
    Chunked,
    /// The length of the body is given twice, or isn't 1 to 18 digits; or a chunk's line is malformed, or the CR LF
    /// behind its bytes is missing.
    #[error("malformed length")]
    BadLength,
    /// The body has at least `n` bytes, which is above the limit of 4,194,304.
    #[error("body of {n} bytes")]
    BodyTooLong { n: u64 },
    /// The input ended inside the message, after `n` bytes of it.
    #[error("cut short after {n} bytes")]
    CutShort { n: u64 },
    /// The connection failed.
    #[error("the connection failed")]
    ConnFault,
    /// There was no memory.
    #[error("out of memory")]
    OutOfMemory,
}

// The answer to an error of the connection.
pub(crate) fn edge_error(error: PortError) -> EdgeError
    ensures { result ≡ edge_of error }
{
    match error {
        PortError::Failed => EdgeError::ConnFault,
        PortError::OutOfMemory => EdgeError::OutOfMemory,
    }
}
