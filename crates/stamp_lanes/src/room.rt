// The memory that an acceptance needs.
ghost use Rattle.std.specs.Prelude.{◌≡◌, None, IsSome, OnOk, OnErr};

use crate::lane::Lane;
use crate::node::lane_node;
use actor_names::OutOfMemory;
use search_tree::Node;
use std::alloc::Global;

/// Makes a node for a lane if there is none.
pub(crate) fn fill_lane(
    alloc: Global,
    lane: &mut Option<Box<Node<Lane>>>,
) -> Result<(), OutOfMemory>
    ensures ok { OnOk result (IsSome lane.new) }
    ensures was { OnErr result (lane.old ≡ None) }
    ensures err { OnErr result (lane.new ≡ lane.old) }
{
    if lane.is_none() {
        *lane = Some(lane_node(alloc, Lane::new(alloc, 0)?)?);
    }
    Ok(())
}
