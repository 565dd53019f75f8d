// The name of a forwarded call.
ghost use Rattle.std.specs.Prelude.{◌≡◌};

use actor_names::Member;

/// The name of a call that one sidecar forwards to another. No two forwarded calls have the same name. Copies take no
/// memory.
#[derive(Clone, Copy)]
pub struct CallName {
    /// The member that forwards the call.
    pub origin: Member,
    /// The part of that member that drew the number.
    pub part: u8,
    /// The number, at most 2^62. A part draws each number once, from 1 on.
    pub number: u64,
}

impl CallName {
    /// An equal name.
    pub fn copy(&self) -> CallName
        ensures { result ≡ self.now }
    {
        *self
    }
}
