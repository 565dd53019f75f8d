// Who asks.

/// On which port a request came.
#[derive(Clone, Copy)]
pub enum Side {
    /// From an application, by the port for callers.
    Caller,
    /// From another sidecar, which passes a call on, by the port for peers.
    Peer,
}
