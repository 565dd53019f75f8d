// One entry of the state of actors.
use crate::text::{StateKey, StateValue};
use actor_names::ActorKey;

/// A value under a key of an actor.
#[derive(Drop)]
pub struct StateEntry {
    /// The actor.
    pub actor: ActorKey,
    /// The key among the actor's entries.
    pub key: StateKey,
    /// The value.
    pub value: StateValue,
    /// The moment from which on the entry is absent, in milliseconds since 1970; without it the entry stays.
    pub absent: Option<u64>,
}
