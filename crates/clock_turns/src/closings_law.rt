// What the takings of a turn guarantee.
ghost use Rattle.std.specs.Prelude.{◌<◌, ℕ, List, Option, None};
ghost use Rattle.actor_names.specs.declared.address.Address.{Address};
ghost use Rattle.sidecar_node.specs.declared.node.Seats.{Seats};
ghost use Rattle.clock_turns.specs.declared.ends.TickEnd.{TickEnd};
ghost use Rattle.clock_turns.specs.declared.closing_stand.Stand.TheVariants.{On};
ghost use Rattle.clock_turns.specs.Closings.{Taking, GoesOn};
ghost use Rattle.clock_turns.specs.ClosingLaws.{EndsWithNone, AreClosed};

/// If nothing ended the turn before, the last TakeClosing on each part was answered that no actor is left. Whatever ended
/// it, to each actor that was given belongs its deactivation, of which the application was told.
pub fn closing_law()
    ensures through { (app : Address) (now parts : ℕ) (ts : List Taking) (before after : Seats)
        → GoesOn app now parts (On 0) ts before after None → (k : ℕ) → k < parts → EndsWithNone k ts }
    ensures closed { (app : Address) (now parts : ℕ) (ts : List Taking) (before after : Seats) (last : Option TickEnd)
        → GoesOn app now parts (On 0) ts before after last → AreClosed app ts }
{}
