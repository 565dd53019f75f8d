// The texts and bytes of an entry.
use lists_and_limits::{Bytes, Text};

/// The key of an entry among those of its actor.
pub type StateKey = Text;

/// The value of an entry: bytes, as they were given.
pub type StateValue = Bytes;
