// What holds of a cluster after every list of events.
ghost use Rattle.std.specs.Prelude.{◌<◌, List, Option, ℕ};
ghost use Rattle.actor_names.specs.declared.actor_key.ActorKey.{ActorKey};
ghost use Rattle.place_table.specs.declared.host.HostInfo.{HostInfo};
ghost use Rattle.place_table.specs.Hosts.{PlacementTable};
ghost use Rattle.turn_core.specs.CellSound.{In};
ghost use Rattle.part_model.specs.Part.{PartState};
ghost use Rattle.world_events.specs.declared.event.WorldEvent.{WorldEvent};
ghost use Rattle.world_events.specs.declared.settings.WorldSettings.{WorldSettings};
ghost use Rattle.cluster_model.specs.World.{opening_cluster, cluster_run, cluster_step, outcomes};
ghost use Rattle.cluster_model.specs.Counts.{TurnsAreCounted};
ghost use Rattle.cluster_model.specs.Asked.{asked_calls, TurnsAreAsked, OverlapsAreNamedAlike, EndedHadBegun, PartsHaveSettings};
ghost use Rattle.cluster_model.specs.Invariant.{IsActiveOnce};
ghost use Rattle.cluster_model.specs.Spaces.{KeepsToSpace};
ghost use Rattle.cluster_model.specs.Cluster.{ClusterInvariant, HasCome, NamedWereBooted, RoomsForgetNothing};

/// Whatever the owners of actors and their parts are, this holds after every list of events, with any deliveries,
/// losses, repeats, joins, leaves and restarts, in any number of spaces. `invariant`, `once`, `named` and `ended` assume
/// that no table gives an actor of another space an owner (`KeepsToSpace`). Every prefix of a list is a list, so it
/// holds at each moment on the way. An event that breaks the fail-stop premise is refused and changes nothing.
///
/// `invariant`: the cluster invariant, for each space by itself in what concerns a room, with single activation and
/// isolated turns over all spaces; no open part leaves a call waiting that could run; what the marks say of an actor on
/// a member is what its cell there shows. `once`: no actor is active on two members. `asked`: each turn that began, each
/// that is open and each call that waits comes from a `call` line of the script that begins or waits, and has the actor,
/// the member and the chain of that line. `named`: so two turns of one actor that overlap come from lines that name the
/// same chain, if both name one. `ended`: each turn that ended had begun. `counted`: as many turns are open in the parts
/// as began and haven't ended. `settings`: each part has the settings of its member's boot line. `came`: what a part has
/// seen, installed and opened at any moment came by messages that are among those of every later moment. `booted`: if
/// members have at least one part, each member that a message or the placement names was booted. `memory`: in each
/// space, no event lowers a greatest boot, and a member after the event that wasn't one before has a boot above the
/// greatest one of its node.
pub fn cluster_law()
    ensures invariant { (owner : PlacementTable → ActorKey → Option HostInfo) (part_of : ActorKey → ℕ → ℕ) (settings : WorldSettings) (events : List WorldEvent) → KeepsToSpace owner →
        ClusterInvariant owner part_of (cluster_run owner part_of (opening_cluster settings) events) }
    ensures once { (owner : PlacementTable → ActorKey → Option HostInfo) (part_of : ActorKey → ℕ → ℕ) (settings : WorldSettings) (events : List WorldEvent) → KeepsToSpace owner →
        IsActiveOnce (cluster_run owner part_of (opening_cluster settings) events).parts }
    ensures asked { (owner : PlacementTable → ActorKey → Option HostInfo) (part_of : ActorKey → ℕ → ℕ) (settings : WorldSettings) (events : List WorldEvent) →
        TurnsAreAsked part_of (cluster_run owner part_of (opening_cluster settings) events) (asked_calls events (outcomes owner part_of (opening_cluster settings) events)) }
    ensures named { (owner : PlacementTable → ActorKey → Option HostInfo) (part_of : ActorKey → ℕ → ℕ) (settings : WorldSettings) (events : List WorldEvent) → KeepsToSpace owner →
        OverlapsAreNamedAlike part_of (cluster_run owner part_of (opening_cluster settings) events) (asked_calls events (outcomes owner part_of (opening_cluster settings) events)) }
    ensures ended { (owner : PlacementTable → ActorKey → Option HostInfo) (part_of : ActorKey → ℕ → ℕ) (settings : WorldSettings) (events : List WorldEvent) → KeepsToSpace owner →
        EndedHadBegun (cluster_run owner part_of (opening_cluster settings) events).marks }
    ensures counted { (owner : PlacementTable → ActorKey → Option HostInfo) (part_of : ActorKey → ℕ → ℕ) (settings : WorldSettings) (events : List WorldEvent) →
        TurnsAreCounted (cluster_run owner part_of (opening_cluster settings) events) }
    ensures settings { (owner : PlacementTable → ActorKey → Option HostInfo) (part_of : ActorKey → ℕ → ℕ) (settings : WorldSettings) (events : List WorldEvent) →
        PartsHaveSettings (cluster_run owner part_of (opening_cluster settings) events) }
    ensures came { (owner : PlacementTable → ActorKey → Option HostInfo) (part_of : ActorKey → ℕ → ℕ) (settings : WorldSettings) (earlier later : List WorldEvent) (p : PartState) →
        In p (cluster_run owner part_of (opening_cluster settings) earlier).parts → HasCome (cluster_run owner part_of (cluster_run owner part_of (opening_cluster settings) earlier) later).messages p }
    ensures booted { (owner : PlacementTable → ActorKey → Option HostInfo) (part_of : ActorKey → ℕ → ℕ) (settings : WorldSettings) (events : List WorldEvent) → 0 < settings.parts →
        NamedWereBooted (cluster_run owner part_of (opening_cluster settings) events) }
    ensures memory { (owner : PlacementTable → ActorKey → Option HostInfo) (part_of : ActorKey → ℕ → ℕ) (settings : WorldSettings) (events : List WorldEvent) (event : WorldEvent) →
        RoomsForgetNothing (cluster_run owner part_of (opening_cluster settings) events).placement (cluster_step owner part_of (cluster_run owner part_of (opening_cluster settings) events) event).world.placement }
{}
