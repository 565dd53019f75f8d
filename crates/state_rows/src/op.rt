// The operations of a transaction.
use crate::text::{StateKey, StateValue};

/// An operation on the entries of one actor.
#[derive(Debug, Drop)]
pub enum StateOp {
    /// Sets the entry of the key to this value. With a `ttl`, the entry is absent again that many seconds after the
    /// transaction.
    Upsert {
        key: StateKey,
        value: StateValue,
        ttl: Option<u32>,
    },
    /// Removes the entry of the key, if there is one.
    Delete {
        key: StateKey,
    },
}
