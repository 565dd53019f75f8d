// The body of a message.
ghost use Rattle.std.specs.Prelude.{◌≡◌, ◌≤◌, drop, vec_len, IfOk};

use lists_and_limits::OutOfMemory;
use std::alloc::Global;
use std::marker::Model;

/// The body of a message; contracts see it as a list of bytes. It may stand behind the head with which it came, so that
/// it isn't copied out of what was read.
#[derive(Drop)]
pub struct Body {
    bytes: Vec<u8>,
    at: usize,
}

impl Model for Body {
    ghost use Rattle.std.specs.Prelude.{List, ℕ, ◌≤◌, drop, vec_len};

    ghost Value = { List ℕ };

    ghost view = { λ a. drop a.at a.bytes.items };

    ghost invariant = { λ a. a.at ≤ vec_len a.bytes };
}

impl Body {
    /// The bytes of a vector. It takes no memory.
    pub fn from_vec(bytes: Vec<u8>) -> Body
        ensures { result ≡ bytes.items }
    {
        Body { bytes, at: 0 }
    }

    /// A copy of these bytes.
    pub fn from_slice(alloc: Global, bytes: &[u8]) -> Result<Body, OutOfMemory>
        ensures { IfOk result (λ copy. copy ≡ bytes.now) }
    {
        match Vec::from_slice(alloc, bytes) {
            Ok(bytes) => Ok(Body { bytes, at: 0 }),
            Err(_) => Err(OutOfMemory),
        }
    }

    // The bytes of a vector behind the first `at`. It takes no memory.
    pub(crate) fn behind(at: usize, bytes: Vec<u8>) -> Body
        requires { at ≤ vec_len bytes }
        ensures { result ≡ drop at bytes.items }
    {
        Body { bytes, at }
    }

    /// The bytes.
    pub fn as_slice(&self) -> &[u8]
        ensures { result.now ≡ self.now }
    {
        &self.bytes.as_slice()[self.at..]
    }
}
