// What holds of the definitions. The functions that state it do nothing.
ghost use Rattle.std.specs.Prelude.{◌≡◌, ◌≤◌, ◌^◌, ℕ, List, [], ◌∷◌, ◌++◌, Ok};
ghost use Rattle.lists_and_limits.specs.Orders.{Ascends};
ghost use Rattle.actor_names.specs.declared.member.Member.{Member};
ghost use Rattle.stamp_lanes.specs.declared.answer.LaneAnswer.{LaneAnswer};
ghost use Rattle.stamp_lanes.specs.declared.answer.StampLook.TheVariants.{Fresh};
ghost use Rattle.stamp_lanes.specs.declared.node.NodeLanes.{NodeLanes};
ghost use Rattle.std.specs.List.{AllByRecursion as Every};
ghost use Rattle.stamp_lanes.specs.Stamps.{look, greatest_boot, node_cmp, IsNode};
ghost use Rattle.stamp_lanes.specs.Restores.{Restores, rows_of};
ghost use Rattle.stamp_lanes.specs.Runs.{LaneEvent, Accepts, MayRun, after_events};

use crate::lanes::StampLanes;

/// A stamp is accepted at most once: whatever is drawn and accepted after it, it is never fresh again, so no run accepts
/// it twice.
pub fn lane_law()
    ensures spent { (member : Member) (part number : ℕ) (answer : LaneAnswer) (later : List LaneEvent) (nodes : List NodeLanes) → MayRun (Accepts member part number answer ∷ later) nodes → look member part number (after_events (Accepts member part number answer ∷ later) nodes) ≡ Ok Fresh → ⊥ }
    ensures once { (member : Member) (part number : ℕ) (first second : LaneAnswer) (before between after : List LaneEvent) (nodes : List NodeLanes) → MayRun (before ++ Accepts member part number first ∷ between ++ Accepts member part number second ∷ after) nodes → ⊥ }
{}

/// The rows of the nodes, first their boots and then their lanes, are read back to the same nodes, and none is refused.
pub fn restored_law(lanes: &StampLanes)
    ensures { Restores (rows_of lanes.now.nodes) [] lanes.now.nodes }
{
    lanes.in_order();
}

/// The nodes are in order, each once, with their lanes in order of their parts, and no boot is above 2^62.
pub fn nodes_law(lanes: &StampLanes)
    ensures order { Ascends node_cmp lanes.now.nodes }
    ensures each { Every IsNode lanes.now.nodes }
    ensures limit { greatest_boot lanes.now.nodes ≤ 2 ^ 62 }
{
    lanes.in_order();
}
