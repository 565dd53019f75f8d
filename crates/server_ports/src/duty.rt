// What the threads of a server do beside the connections.

/// How long a loop over connections waits before it looks again whether there is room for one more, in milliseconds.
pub const SHORT_PAUSE_MS: u64 = 50;

/// What a thread of a server is asked to do with its pass, beside the connections.
#[derive(Clone, Copy)]
pub enum Duty {
    /// One turn of the work of this number.
    Turn(u32),
    /// The pause between two turns of it.
    Rest(u32),
    /// A pause of `SHORT_PAUSE_MS`, while there is no room for one more connection.
    Pause,
    /// What is left to do for it, once the service is over.
    Finish(u32),
    /// To wake the loops that wait for a connection, and to end the connections that wait for a byte, once the service is
    /// over.
    Wake,
}
