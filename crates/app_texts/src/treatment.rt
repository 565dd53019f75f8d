// How the actors of a type are treated, apart from the type's name.

// Times are in milliseconds; a depth of 0 turns reentrancy off.
#[derive(Clone, Copy)]
pub(crate) struct Treatment {
    pub(crate) idle_ms: u64,
    pub(crate) drain_ms: u64,
    pub(crate) depth: u32,
}
