// What the Dues of a tick guarantee.
ghost use Rattle.std.specs.Prelude.{◌<◌, ℕ, List, Option, None, length};
ghost use Rattle.actor_names.specs.declared.address.Address.{Address};
ghost use Rattle.sidecar_node.specs.declared.node.SidecarNode.{SidecarNode};
ghost use Rattle.sidecar_node.specs.declared.node.Seats.{Seats};
ghost use Rattle.sidecar_node.specs.Nodes.{part_gates};
ghost use Rattle.clock_turns.specs.declared.ends.TickEnd.{TickEnd};
ghost use Rattle.clock_turns.specs.declared.tick_stand.Stand.TheVariants.{On};
ghost use Rattle.clock_turns.specs.Ticks.{Firing, GoesOn};
ghost use Rattle.clock_turns.specs.TickLaws.{EndsWithNone, AreFinished};

/// If nothing ended the tick before, the last Due on each book was answered without a timer. Whatever ended it, each
/// first Started that found its registration is followed by a turn and its Finished.
pub fn tick_law()
    ensures through { (node : SidecarNode) (app : Address) (now : ℕ) (ts : List Firing) (before after : Seats) (first last : ℕ)
        → GoesOn node app now (On 0) ts before after first last None → (k : ℕ) → k < length (part_gates node) → EndsWithNone k ts }
    ensures finished { (node : SidecarNode) (app : Address) (now : ℕ) (ts : List Firing) (before after : Seats) (first last : ℕ) (over : Option TickEnd)
        → GoesOn node app now (On 0) ts before after first last over → AreFinished ts }
{}
