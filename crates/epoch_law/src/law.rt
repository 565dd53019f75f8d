// The epochs of the members that have an actor active, and the holds that keep it active, over every list of events.
ghost use Rattle.std.specs.Prelude.{◌≢◌, ◌<◌, ℕ, List, Option};
ghost use Rattle.actor_names.specs.declared.actor_key.ActorKey.{ActorKey};
ghost use Rattle.place_table.specs.declared.host.HostInfo.{HostInfo};
ghost use Rattle.place_table.specs.Hosts.{PlacementTable};
ghost use Rattle.turn_core.specs.CellSound.{In};
ghost use Rattle.part_model.specs.declared.event.PartEvent.{PartEvent};
ghost use Rattle.part_model.specs.Part.{PartState};
ghost use Rattle.part_model.specs.PartRuns.{part_after};
ghost use Rattle.part_model.specs.Sound.{IsPartSound};
ghost use Rattle.world_events.specs.declared.event.WorldEvent.{WorldEvent};
ghost use Rattle.world_events.specs.declared.settings.WorldSettings.{WorldSettings};
ghost use Rattle.cluster_model.specs.World.{opening_cluster, cluster_run};
ghost use Rattle.cluster_model.specs.Spaces.{KeepsToSpace};
ghost use Rattle.epoch_law.specs.Epochs.{HasActive, IsHeld, NeverStops, releases, TellsEpoch, HoldsActive, LeavesHold};

/// `rises`: whatever the events of a cluster are, with any deliveries, losses, repeats, joins, leaves and restarts, if a
/// part has an actor active at some moment, and at the same moment or a later one a part of another member has it active,
/// the version at which the later one opened last is the greater one. It assumes that no table gives an actor of another
/// space an owner.
///
/// For every part: `told`: a Lock of version 0 leaves it as it is, and unless it has stopped, the reply is a receipt, which
/// tells the version at which it opened last. `held`: a Hold that is answered Held finds the actor active, and leaves it
/// active with one hold more.
///
/// For every sound part, as each part that runs is (`part_law`), and every list of events without a StopPart: `stays`: if n
/// holds of an active actor are open and fewer than n of the events are a Release of it, the actor is active after them.
/// `beside`: the same if holds are added meanwhile, and at no moment have as many Releases of the actor come as holds were
/// open at first or were added since.
pub fn epoch_law()
    ensures rises { (owner : PlacementTable → ActorKey → Option HostInfo) (part_of : ActorKey → ℕ → ℕ) (settings : WorldSettings) (earlier later : List WorldEvent) (p q : PartState) (key : ActorKey) → KeepsToSpace owner →
        In p (cluster_run owner part_of (opening_cluster settings) earlier).parts → HasActive p key →
        In q (cluster_run owner part_of (cluster_run owner part_of (opening_cluster settings) earlier) later).parts → HasActive q key →
        p.member ≢ q.member → p.opened < q.opened }
    ensures told { (owner : PlacementTable → ActorKey → Option HostInfo) (p : PartState) → TellsEpoch owner p }
    ensures held { (owner : PlacementTable → ActorKey → Option HostInfo) (p : PartState) (key : ActorKey) → HoldsActive owner p key }
    ensures stays { (owner : PlacementTable → ActorKey → Option HostInfo) (p : PartState) (key : ActorKey) (n : ℕ) (events : List PartEvent) → IsPartSound owner p → IsHeld n p key →
        releases key events < n → NeverStops events → HasActive (part_after owner p events) key }
    ensures beside { (owner : PlacementTable → ActorKey → Option HostInfo) (p : PartState) (key : ActorKey) (n : ℕ) (events : List PartEvent) → IsPartSound owner p → IsHeld n p key →
        LeavesHold owner n p key events → NeverStops events → HasActive (part_after owner p events) key }
{}
