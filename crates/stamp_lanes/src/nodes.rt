// Changes of one node among the others.
ghost use Rattle.std.specs.Prelude.{◌≡◌};
ghost use Rattle.lists_and_limits.specs.Orders.{Ascends};
ghost use Rattle.std.specs.List.{AllByRecursion as Every};
ghost use Rattle.stamp_lanes.specs.Stamps.{node_cmp, node_after, after_accept, IsNode};
ghost use Rattle.stamp_lanes.specs.Restores.{with_lane, after_lane_row};

use crate::answer::KeptNumber;
use crate::lane::Lane;
use crate::node::{NodeLanes, keep_in, put_in};
use crate::standing::NodePlace;
use actor_names::Member;
use search_tree::{Node, Tree};

// A node after a number of a part, and the tree node `room`, if the lane doesn't stand in it.
fn accepted(
    mut node: Box<Node<NodeLanes>>,
    part: u8,
    kept: KeptNumber,
    room: Box<Node<Lane>>,
) -> (Box<Node<NodeLanes>>, Option<Box<Node<Lane>>>)
    requires { IsNode node.value.element }
    ensures { result.0.value.element ≡ node_after part kept node.value.element }
{
    let room = keep_in(&mut node.element.lanes, part, kept, room);
    (node, room)
}

// A node with one more lane.
fn with_lane(mut node: Box<Node<NodeLanes>>, lane: Box<Node<Lane>>) -> Box<Node<NodeLanes>>
    requires { IsNode node.value.element }
    ensures { result.value.element ≡ with_lane lane.value.element node.value.element }
{
    put_in(&mut node.element.lanes, lane);
    node
}

/// Keeps a number in the lane of a part of a member, if its node is there. A new lane stands in the node `room`, which
/// is given back otherwise. It takes no memory.
pub(crate) fn accept_in(
    tree: &mut Tree<NodeLanes>,
    member: &Member,
    part: u8,
    kept: KeptNumber,
    room: Box<Node<Lane>>,
) -> Option<Box<Node<Lane>>>
    requires order { Ascends node_cmp tree.old }
    requires each { Every IsNode tree.old }
    ensures { tree.new ≡ after_accept member.now part kept tree.old }
{
    match tree.take(&NodePlace {
        space: &member.space,
        node: &member.node,
    }) {
        None => Some(room),
        Some(old) => {
            let (node, room) = accepted(old, part, kept, room);
            tree.put(node);
            room
        }
    }
}

/// Puts a lane among those of a member's node, if it is there. It takes no memory.
pub(crate) fn put_lane_in(tree: &mut Tree<NodeLanes>, member: &Member, lane: Box<Node<Lane>>)
    requires order { Ascends node_cmp tree.old }
    requires each { Every IsNode tree.old }
    ensures { tree.new ≡ after_lane_row member.now lane.value.element tree.old }
{
    match tree.take(&NodePlace {
        space: &member.space,
        node: &member.node,
    }) {
        None => {}
        Some(old) => {
            let node = with_lane(old, lane);
            tree.put(node);
        }
    }
}
