// Lanes: one for each part of each node that forwards calls.
ghost use Rattle.std.specs.Prelude.{◌≡◌};
ghost use Rattle.call_book.specs.Lanes.{lane_of, lane_cmp};

use actor_names::{Member, Node, Space};
use std::cmp::Ordering;

/// What a lane is named by: a part of a node, in whichever boot.
#[derive(Clone, Copy)]
pub struct LaneName {
    /// The space.
    pub space: Space,
    /// The node.
    pub node: Node,
    /// The part.
    pub part: u8,
}

/// The calls that one part of a node forwards.
#[derive(Clone, Copy)]
pub struct CallLane {
    /// Whose calls they are.
    pub name: LaneName,
    /// The node's greatest boot so far.
    pub boot: u64,
    /// The greatest number of that boot whose call was dropped, 0 before any.
    pub floor: u64,
}

/// The lane of a member's part.
pub(crate) fn lane_of(origin: &Member, part: u8) -> LaneName
    ensures { result ≡ lane_of origin.now part }
{
    LaneName {
        space: origin.space.copy(),
        node: origin.node.copy(),
        part,
    }
}

impl LaneName {
    /// An equal name; takes no memory.
    pub(crate) fn copy(&self) -> LaneName
        ensures { result ≡ self.now }
    {
        LaneName {
            space: self.space.copy(),
            node: self.node.copy(),
            part: self.part,
        }
    }

    /// How this name compares with another one: by space, then node, then part.
    pub(crate) fn order(&self, other: &LaneName) -> Ordering
        ensures { result ≡ lane_cmp self.now other.now }
    {
        match self.space.cmp(&other.space) {
            Ordering::Equal => match self.node.cmp(&other.node) {
                Ordering::Equal => self.part.cmp(&other.part),
                different => different,
            },
            different => different,
        }
    }
}
