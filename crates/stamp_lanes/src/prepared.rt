// A boot that has all the memory it needs.
use crate::node::NodeLanes;
use search_tree::Node;

/// A node that can draw a boot without memory. `space_of` and `node_of` say which one it is.
#[derive(Drop)]
pub struct PreparedBoot {
    pub(crate) node: Box<Node<NodeLanes>>,
}
