// What a sidecar is told of itself and of what it calls.
use actor_names::{Address, AppId, Node, Space};

/// What a sidecar is told of itself and of what it calls, by the words of its command.
#[derive(Drop)]
pub struct StartWords {
    /// The space of its node.
    pub space: Space,
    /// Its node.
    pub node: Node,
    /// The id of its application.
    pub app: AppId,
    /// Where its application listens.
    pub app_at: Address,
    /// Where it will listen for other sidecars.
    pub peer_at: Address,
    /// Where the store listens.
    pub store_at: Address,
}
