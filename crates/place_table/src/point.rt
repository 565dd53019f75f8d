// Points of the ring.
use actor_names::Node;

/// A point of a node on the ring.
#[derive(Clone, Copy)]
pub struct Point {
    /// Where the point is on the ring.
    pub place: u64,
    /// The node whose point it is.
    pub node: Node,
}
