// How long a connection waits.

/// How long a connection waits, in milliseconds. `None` waits for as long as the system does, and 0 counts as 1.
#[derive(Clone, Copy)]
pub struct Waits {
    /// While no byte comes or goes.
    pub quiet_ms: Option<u64>,
    /// For a message: all that comes between two writes, from its first byte on, or that is written at once. It has a second
    /// more for each 65,536 bytes.
    pub message_ms: Option<u64>,
    /// From its beginning to its end.
    pub whole_ms: Option<u64>,
}

/// For as long as the system does.
pub const WITHOUT_END: Waits = Waits {
    quiet_ms: None,
    message_ms: None,
    whole_ms: None,
};

impl Waits {
    /// Only while no byte comes or goes.
    pub fn quiet(ms: u64) -> Waits {
        Waits {
            quiet_ms: Some(ms),
            message_ms: None,
            whole_ms: None,
        }
    }
}
