// What a part keeps of one actor.
use actor_names::ActorKey;
use turn_core::Cell;

/// One actor's turns and queue, and whether it is active or closing.
#[derive(Drop)]
pub struct ActorCell {
    /// The actor.
    pub key: ActorKey,
    /// Its turns and its queue.
    pub inner: Cell,
    /// Whether it is active: from its first turn until its deactivation call is over.
    pub active: bool,
    /// Whether it has been taken for deactivation.
    pub closing: bool,
    /// When its last turn or hold ended, in milliseconds since 1970.
    pub last: u64,
}
