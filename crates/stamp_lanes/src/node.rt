// A node with the lanes of the boot that it drew last.
ghost use Rattle.std.specs.Prelude.{◌≡◌, ◌≤◌, ◌+◌, min, if◌then◌else◌, length, IfOk, option_copied};
ghost use Rattle.lists_and_limits.specs.Lists.{first_behind, with_put};
ghost use Rattle.lists_and_limits.specs.Orders.{Ascends};
ghost use Rattle.stamp_lanes.specs.Lanes.{new_lane, lane_cmp, lane_of, lane_after, look_lane, lanes_after, IsLane};
ghost use Rattle.std.specs.List.{AllByRecursion as Every};
ghost use Rattle.stamp_lanes.specs.Stamps.{after_part, bare_node};

use crate::answer::{KeptNumber, StampLook};
use crate::error::StampError;
use crate::lane::{Lane, stands};
use crate::standing::{AfterPart, PartPlace};
use actor_names::{Node, OutOfMemory, Space};
use search_tree::{Tree, leaf};
use std::alloc::Global;
use std::mem;

/// The most nodes that have boots.
pub const MOST_NODES: u32 = 65_536;

/// A node with the boot that it drew last, and the lanes of that boot.
#[derive(Drop)]
pub struct NodeLanes {
    /// The space of the node.
    pub space: Space,
    /// The node.
    pub node: Node,
    /// The boot that it drew last.
    pub boot: u64,
    /// Its lanes, in order of their parts.
    pub lanes: Tree<Lane>,
}

impl NodeLanes {
    /// A boot of a node without lanes; takes no memory.
    pub(crate) fn new(space: &Space, node: &Node, boot: u64) -> NodeLanes
        ensures { result ≡ bare_node space.now node.now boot }
    {
        NodeLanes {
            space: space.copy(),
            node: node.copy(),
            boot,
            lanes: Tree::new(),
        }
    }
}

/// The tree node of a boot without lanes.
pub(crate) fn bare_leaf(
    alloc: Global,
    space: &Space,
    node: &Node,
    boot: u64,
) -> Result<Box<search_tree::Node<NodeLanes>>, OutOfMemory>
    ensures { IfOk result (λ leaf. leaf.value.element ≡ bare_node space.now node.now boot) }
{
    let leaf = leaf(alloc, NodeLanes::new(space, node, boot))?;
    Ok(leaf)
}

/// The tree node of a node that drew this boot, without lanes.
pub(crate) fn with_boot(
    mut node: Box<search_tree::Node<NodeLanes>>,
    boot: u64,
) -> Box<search_tree::Node<NodeLanes>>
    ensures { result.value.element ≡ bare_node node.value.element.space node.value.element.node boot }
{
    node.element.boot = boot;
    let _old = mem::replace(&mut node.element.lanes, Tree::new());
    node
}

/// How many nodes there are, if one more boot was kept and the node was known or not. More than 65,536 count as that
/// many.
pub(crate) fn counted(count: u32, known: bool) -> u32
    requires { count ≤ 65536 }
    ensures { result ≡ (if known then count else min 65536 (count + 1)) }
{
    if known || count >= MOST_NODES {
        return count;
    }
    count + 1
}

/// How a number of a part stands among these lanes.
pub(crate) fn look_in(lanes: &Tree<Lane>, part: u8, number: u64) -> Result<StampLook, StampError>
    requires { Ascends lane_cmp lanes.now }
    ensures { result ≡ look_lane number (lane_of part lanes.now) }
{
    match lanes.get(&PartPlace { part }) {
        None => stands(number, 0, None),
        Some(lane) => lane.look(number),
    }
}

/// The first lane whose part is above `after`, or the first of all.
pub(crate) fn next_in(lanes: &Tree<Lane>, after: Option<u8>) -> Option<&Lane>
    requires { Ascends lane_cmp lanes.now }
    ensures { option_copied result ≡ first_behind (after_part after) lanes.now }
{
    lanes.next(&AfterPart { after })
}

/// The node of a lane of this part, to be put into a tree.
pub(crate) fn lane_node(
    alloc: Global,
    lane: Lane,
) -> Result<Box<search_tree::Node<Lane>>, OutOfMemory>
    ensures { IfOk result (λ node. node.value.element ≡ lane) }
{
    let node = leaf(alloc, lane)?;
    Ok(node)
}

// The node of a lane of this part before its first number.
fn begun(mut room: Box<search_tree::Node<Lane>>, part: u8) -> Box<search_tree::Node<Lane>>
    ensures { result.value.element ≡ new_lane part }
{
    room.element.begin(part);
    room
}

// The node of a lane after one more number.
fn longer(mut lane: Box<search_tree::Node<Lane>>, kept: KeptNumber) -> Box<search_tree::Node<Lane>>
    requires { length lane.value.element.kept ≤ 256 }
    ensures { result.value.element ≡ lane_after lane.value.element kept }
{
    lane.element.keep(kept);
    lane
}

/// Keeps a number in the lane of a part. If there is none yet, it stands in the node `room`, which is given back
/// otherwise. It takes no memory.
pub(crate) fn keep_in(
    lanes: &mut Tree<Lane>,
    part: u8,
    kept: KeptNumber,
    room: Box<search_tree::Node<Lane>>,
) -> Option<Box<search_tree::Node<Lane>>>
    requires order { Ascends lane_cmp lanes.old }
    requires each { Every IsLane lanes.old }
    ensures { lanes.new ≡ lanes_after part kept lanes.old }
{
    match lanes.take(&PartPlace { part }) {
        None => {
            let lane = longer(begun(room, part), kept);
            lanes.put(lane);
            None
        }
        Some(old) => {
            let lane = longer(old, kept);
            lanes.put(lane);
            Some(room)
        }
    }
}

/// Puts a lane among these. It takes no memory.
pub(crate) fn put_in(lanes: &mut Tree<Lane>, lane: Box<search_tree::Node<Lane>>)
    requires { Ascends lane_cmp lanes.old }
    ensures { lanes.new ≡ with_put lane_cmp lane.value.element lanes.old }
{
    lanes.put(lane);
}
