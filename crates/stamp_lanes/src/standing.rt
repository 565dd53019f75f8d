// How lanes and nodes are ordered in search trees: lanes by their parts, nodes by space and name.
ghost use Rattle.std.specs.Prelude.{◌≡◌, refl, None, option_copied};
ghost use Rattle.std.specs.Ordering.{nat_cmp};
ghost use Rattle.stamp_lanes.specs.Lanes.{lane_cmp, at_part};
ghost use Rattle.stamp_lanes.specs.Stamps.{node_cmp, at_node, after_node, after_part};
ghost use Rattle.stamp_lanes.specs.Orders.{lanes_total, nodes_total};

use crate::lane::Lane;
use crate::node::NodeLanes;
use actor_names::{Node, Space};
use search_tree::{Element, Probe};
use std::cmp::Ordering;

impl Element for Lane {
    type Summary = ();

    ghost cmp = { lane_cmp };

    ghost summary = { λ _. tt };

    ghost first = { λ _. None };

    fn order(&self, other: &Lane) -> Ordering {
        self.part.cmp(&other.part)
    }

    fn summary_of_none() {}

    fn summary_around(_left: (), _element: &Lane, _right: ()) {}

    fn first_side(_left: (), _element: &Lane, _right: ()) -> Ordering {
        Ordering::Less
    }

    ghost no_first = { refl };

    ghost total = { lanes_total };
}

/// The lane of a part.
#[derive(Drop)]
pub(crate) struct PartPlace {
    pub(crate) part: u8,
}

impl Probe<Lane> for PartPlace {
    ghost at = { λ p l. at_part p.part l };

    fn compare(&self, element: &Lane) -> Ordering {
        element.part.cmp(&self.part)
    }
}

/// The place of a part; without one, the place before every lane.
#[derive(Drop)]
pub(crate) struct AfterPart {
    pub(crate) after: Option<u8>,
}

impl Probe<Lane> for AfterPart {
    ghost at = { λ p l. after_part p.after l };

    fn compare(&self, element: &Lane) -> Ordering {
        match self.after {
            None => Ordering::Greater,
            Some(part) => element.part.cmp(&part),
        }
    }
}

// How a node compares with this name.
fn node_cmp(element: &NodeLanes, space: &Space, node: &Node) -> Ordering
    ensures { result ≡ at_node space.now node.now element.now }
{
    match element.space.cmp(space) {
        Ordering::Equal => element.node.cmp(node),
        other => other,
    }
}

impl Element for NodeLanes {
    type Summary = ();

    ghost cmp = { node_cmp };

    ghost summary = { λ _. tt };

    ghost first = { λ _. None };

    fn order(&self, other: &NodeLanes) -> Ordering {
        node_cmp(self, &other.space, &other.node)
    }

    fn summary_of_none() {}

    fn summary_around(_left: (), _element: &NodeLanes, _right: ()) {}

    fn first_side(_left: (), _element: &NodeLanes, _right: ()) -> Ordering {
        Ordering::Less
    }

    ghost no_first = { refl };

    ghost total = { nodes_total };
}

/// The node of a space and a name.
#[derive(Drop)]
pub(crate) struct NodePlace<'a> {
    pub(crate) space: &'a Space,
    pub(crate) node: &'a Node,
}

impl<'a> Probe<NodeLanes> for NodePlace<'a> {
    ghost at = { λ p e. at_node p.space.now p.node.now e };

    fn compare(&self, element: &NodeLanes) -> Ordering {
        node_cmp(element, self.space, self.node)
    }
}

/// The place of a node; without one, the place before every node.
#[derive(Drop)]
pub(crate) struct AfterNode<'a> {
    pub(crate) after: Option<&'a NodeLanes>,
}

impl<'a> Probe<NodeLanes> for AfterNode<'a> {
    ghost at = { λ p e. after_node (option_copied p.after) e };

    fn compare(&self, element: &NodeLanes) -> Ordering {
        match self.after {
            None => Ordering::Greater,
            Some(place) => node_cmp(element, &place.space, &place.node),
        }
    }
}
