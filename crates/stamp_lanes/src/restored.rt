// A lane that is read back.
ghost use Rattle.std.specs.Prelude.{◌≡◌, ◌≤◌, length, IfOk};
ghost use Rattle.lists_and_limits.specs.Orders.{Ascends};
ghost use Rattle.stamp_lanes.specs.Lanes.{lane_cmp};
ghost use Rattle.stamp_lanes.specs.Restores.{number_fault, numbers_fault, lane_fault};

use crate::answer::KeptNumber;
use crate::error::RestoreError;
use crate::kept::{KeptNumbers, MOST_KEPT, answer_in};
use crate::lane::Lane;
use crate::node::lane_node;
use crate::standing::PartPlace;
use actor_names::OutOfMemory;
use search_tree::{Node, Tree};
use std::alloc::Global;

// The fault of the first number that comes again.
fn number_fault(kept: &[KeptNumber]) -> Option<RestoreError>
    ensures { result ≡ number_fault kept.now }
{
    for (i, k) in kept.iter().enumerate() {
        if answer_in(&kept[i + 1..], k.number).is_some() {
            return Some(RestoreError::SameNumber { number: k.number });
        }
    }
    None
}

// The fault of the numbers of a lane.
fn numbers_fault(kept: &[KeptNumber]) -> Option<RestoreError>
    ensures { result ≡ numbers_fault kept.now }
{
    let n = kept.len();
    if n > MOST_KEPT as usize {
        return Some(RestoreError::TooManyNumbers { n: n as u64 });
    }
    number_fault(kept)
}

/// Why a lane of this part with these numbers can't be put among others.
pub(crate) fn lane_fault(lanes: &Tree<Lane>, part: u8, kept: &[KeptNumber]) -> Option<RestoreError>
    requires { Ascends lane_cmp lanes.now }
    ensures { result ≡ lane_fault part kept.now lanes.now }
{
    if lanes.get(&PartPlace { part }).is_some() {
        return Some(RestoreError::SameLane);
    }
    numbers_fault(kept)
}

// The lane of these numbers, in a node.
pub(crate) fn restored_lane(
    alloc: Global,
    part: u8,
    floor: u64,
    kept: Vec<KeptNumber>,
) -> Result<Box<Node<Lane>>, OutOfMemory>
    requires { length kept.items ≤ 256 }
    ensures { IfOk result (λ node. node.value.element ≡ record { part = part; floor = floor; kept = kept.items }) }
{
    let kept = KeptNumbers::of(kept)?;
    lane_node(alloc, Lane { part, floor, kept })
}
