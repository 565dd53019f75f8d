// Calls of methods, as requests ask for them.
use actor_names::{ActorKey, ChainId};
use http_edge::Bytes;

/// A call of an actor's method. The body and Content-Type are those of its request.
#[derive(Drop)]
pub struct Invoke {
    pub actor: ActorKey,
    /// The method, as it stands in the caller's path, with the query.
    pub method: Bytes,
    /// The reentrancy chain that the caller or peer told.
    pub chain: Option<ChainId>,
    /// The version of the table that a peer knows of; a caller has none.
    pub least: Option<u64>,
}
