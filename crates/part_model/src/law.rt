// What holds of a part for every list of events.
ghost use Rattle.std.specs.Prelude.{◌≡◌, ◌↔◌, ℕ, List, Option, true};
ghost use Rattle.actor_names.specs.declared.actor_key.ActorKey.{ActorKey};
ghost use Rattle.actor_names.specs.declared.member.Member.{Member};
ghost use Rattle.place_table.specs.declared.host.HostInfo.{HostInfo};
ghost use Rattle.place_table.specs.Hosts.{PlacementTable};
ghost use Rattle.part_model.specs.declared.settings.TypeSettings.{TypeSettings};
ghost use Rattle.part_model.specs.declared.event.PartEvent.{PartEvent};
ghost use Rattle.part_model.specs.declared.stage.SeenStage.TheVariants.{Drained};
ghost use Rattle.turn_core.specs.CellMarks.{TurnsIsolated};
ghost use Rattle.part_model.specs.Settings.{settings_of};
ghost use Rattle.part_model.specs.Cells.{cell_at};
ghost use Rattle.part_model.specs.Activity.{Replays, activity_of, no_activity, replay, turn_marks};
ghost use Rattle.part_model.specs.Part.{PartState, new_part, part_step, seen_stage};
ghost use Rattle.part_model.specs.Sound.{IsPartSound, AreVersionsWithin, NoIdleWaiter, OwnsWhenOpen, TellsState};
ghost use Rattle.part_model.specs.PartMoves.{Stepped};
ghost use Rattle.part_model.specs.PartRuns.{part_after, marks_after, AreInRange, refuses, LeavesAsWas, AreVersionsTied, IsTrulyDrained, BeginsRightly};

/// Whatever the owners of actors are, after every list of events from a new part: in an open part no call waits
/// that could run, the part is sound, its versions are tied, and an open part's active actors are its own. After
/// events in range versions are in range. Each step of a sound part changes stage, versions and table in one of five
/// ways, and opens a part only if it is drained.
///
/// For every state: a receipt in a reply is that of the new state, its stage is Drained exactly if the part is
/// updated and no active actor is foreign, and a refused event leaves the part as it was.
///
/// An event that ran out of memory changes nothing, and is in no list.
pub fn part_law()
    ensures idle { (owner : PlacementTable → ActorKey → Option HostInfo) (m : Member) (number : ℕ) (kinds : List TypeSettings) (events : List PartEvent) →
        NoIdleWaiter owner (part_after owner (new_part m number kinds) events) }
    ensures sound { (owner : PlacementTable → ActorKey → Option HostInfo) (m : Member) (number : ℕ) (kinds : List TypeSettings) (events : List PartEvent) →
        IsPartSound owner (part_after owner (new_part m number kinds) events) }
    ensures tied { (owner : PlacementTable → ActorKey → Option HostInfo) (m : Member) (number : ℕ) (kinds : List TypeSettings) (events : List PartEvent) →
        AreVersionsTied (part_after owner (new_part m number kinds) events) }
    ensures within { (owner : PlacementTable → ActorKey → Option HostInfo) (m : Member) (number : ℕ) (kinds : List TypeSettings) (events : List PartEvent) →
        AreInRange events → AreVersionsWithin (part_after owner (new_part m number kinds) events) }
    ensures owns { (owner : PlacementTable → ActorKey → Option HostInfo) (m : Member) (number : ℕ) (kinds : List TypeSettings) (events : List PartEvent) →
        OwnsWhenOpen owner (part_after owner (new_part m number kinds) events) }
    ensures stepped { (owner : PlacementTable → ActorKey → Option HostInfo) (p : PartState) (event : PartEvent) → IsPartSound owner p →
        Stepped owner p event (part_step owner p event).part }
    ensures tells { (owner : PlacementTable → ActorKey → Option HostInfo) (p : PartState) (event : PartEvent) →
        TellsState owner (part_step owner p event).reply (part_step owner p event).part }
    ensures drained { (owner : PlacementTable → ActorKey → Option HostInfo) (p : PartState) →
        (seen_stage owner p p.stage ≡ Drained) ↔ IsTrulyDrained owner p }
    ensures refused { (owner : PlacementTable → ActorKey → Option HostInfo) (p : PartState) (event : PartEvent) → refuses event (part_step owner p event).reply ≡ true →
        LeavesAsWas p (part_step owner p event) }
{}

/// Whatever the owners of actors are, for every list of events from a new part: the turns of each actor are
/// isolated, so that two that overlap carry the same chain and no more are open than the depth of the actor's type
/// allows, and the marks say which actors are active and which turns of them are open. The marks of each step of a
/// sound part say what its cells became. In such a step a turn begins only in an open part that owns the actor, or
/// beside an open turn of its chain.
pub fn part_turns_law()
    ensures isolated { (owner : PlacementTable → ActorKey → Option HostInfo) (m : Member) (number : ℕ) (kinds : List TypeSettings) (events : List PartEvent) (key : ActorKey) →
        TurnsIsolated (settings_of kinds key.kind).depth (turn_marks key (marks_after owner (new_part m number kinds) events)) }
    ensures told { (owner : PlacementTable → ActorKey → Option HostInfo) (m : Member) (number : ℕ) (kinds : List TypeSettings) (events : List PartEvent) (key : ActorKey) →
        activity_of (cell_at (part_after owner (new_part m number kinds) events).cells key) ≡ replay (marks_after owner (new_part m number kinds) events) key no_activity }
    ensures replayed { (owner : PlacementTable → ActorKey → Option HostInfo) (p : PartState) (event : PartEvent) → IsPartSound owner p →
        Replays event p (part_step owner p event).part (part_step owner p event).marks }
    ensures begins { (owner : PlacementTable → ActorKey → Option HostInfo) (p : PartState) (event : PartEvent) → IsPartSound owner p →
        BeginsRightly owner p (part_step owner p event) }
{}
