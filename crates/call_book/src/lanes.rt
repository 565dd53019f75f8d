// The lanes of a book.
ghost use Rattle.std.specs.Prelude.{◌≡◌, ◌<◌, ◌+◌, if◌then◌else◌, [], false, length, is_some, option_copied};
ghost use Rattle.call_book.specs.Lanes.{lane_at, put_lane, raise_lane, has_boot};
ghost use Rattle.call_book.specs.Turns.{standing_of};

use crate::keys::{LanePlace, Risen};
use crate::lane::{CallLane, LaneName};
use crate::standing::Standing;
use search_tree::{Node, Tree};
use std::marker::Model;

/// The greatest number of lanes.
pub(crate) const MOST_LANES: u32 = 4096;

/// Lanes in order of their names, at most 4,096.
#[derive(Drop)]
pub(crate) struct Lanes {
    tree: Tree<CallLane>,
    count: u32,
}

impl Model for Lanes {
    ghost use Rattle.std.specs.Prelude.{List};
    ghost use Rattle.call_book.specs.declared.lane.CallLane.{CallLane};
    ghost use Rattle.call_book.specs.Turns.{AreCountedLanes};

    ghost Value = { List CallLane };

    ghost view = { λ a. a.tree };

    ghost invariant = { λ a. AreCountedLanes a.tree a.count };
}

// How a lane, or a new one if there is none, stands to a boot.
fn standing_of(lane: Option<&CallLane>, count: u32, boot: u64) -> Standing
    ensures { result ≡ standing_of (option_copied lane.entry) count boot }
{
    match lane {
        None => {
            if count < MOST_LANES {
                Standing::Bare
            } else {
                Standing::LanesFull
            }
        }
        Some(lane) => {
            if boot < lane.boot {
                Standing::Old {
                    greatest: lane.boot,
                }
            } else if lane.boot == boot {
                Standing::Current { floor: lane.floor }
            } else {
                Standing::Bare
            }
        }
    }
}

// How many lanes there are after one was put.
fn count_with(count: u32, there: bool) -> u32
    requires { there ≡ false → count < 4096 }
    ensures { result ≡ (if there then count else count + 1) }
{
    if there { count } else { count + 1 }
}

impl Lanes {
    /// No lanes; takes no memory.
    pub(crate) fn new() -> Lanes
        ensures { result ≡ [] }
    {
        Lanes {
            tree: Tree::new(),
            count: 0,
        }
    }

    /// How the lane with this name stands to a boot.
    pub(crate) fn standing(&self, name: &LaneName, boot: u64) -> Standing
        ensures { result ≡ standing_of (lane_at name.now self.now) (length self.now) boot }
    {
        standing_of(self.tree.get(&LanePlace { name }), self.count, boot)
    }

    /// Whether the lane with this name has this boot.
    pub(crate) fn has_boot(&self, name: &LaneName, boot: u64) -> bool
        ensures { result ≡ has_boot (lane_at name.now self.now) boot }
    {
        match self.tree.get(&LanePlace { name }) {
            None => false,
            Some(lane) => lane.boot == boot,
        }
    }

    // Whether there is a lane with this name.
    fn is_there(&self, name: &LaneName) -> bool
        ensures { result ≡ is_some (lane_at name.now self.now) }
    {
        self.tree.get(&LanePlace { name }).is_some()
    }

    /// Puts a lane in its place, and replaces one with its name; takes no memory.
    pub(crate) fn put(&mut self, node: Box<Node<CallLane>>)
        requires { is_some (lane_at node.value.element.name self.old) ≡ false → length self.old < 4096 }
        ensures { self.new ≡ put_lane node.value.element self.old }
    {
        let there = self.is_there(&node.element.name);
        self.tree.put(node);
        self.count = count_with(self.count, there);
    }

    /// The floor of the lane with this name rises to this number; takes no memory.
    pub(crate) fn raise(&mut self, name: &LaneName, number: u64)
        ensures { self.new ≡ raise_lane name.now number self.old }
    {
        self.tree.change(&LanePlace { name }, &Risen { number });
    }
}
