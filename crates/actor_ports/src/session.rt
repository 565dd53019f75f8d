// How a session over a connection ended.

/// How a session over a connection ended. `requests` is the number of messages that were read and whose answers were
/// written whole.
#[derive(Clone, Copy, Debug)]
pub enum SessionEnd {
    /// The other end sent no more, and its last message was whole.
    Done { requests: u64 },
    /// The next bytes aren't a message, or the input ended inside one.
    Malformed { requests: u64 },
    /// The service behind the session has lost its disk. The answer that says so was written first.
    Broken { requests: u64 },
    /// The connection failed.
    ConnFault { requests: u64 },
    /// There was no memory for the next answer.
    OutOfMemory { requests: u64 },
    /// A counter has reached its end, at `count`.
    Spent { requests: u64, count: u64 },
}
