// What holds of a round's targets after every list of events.
ghost use Rattle.std.specs.Prelude.{◌⊎◌, ℕ, List, [], ◌∷◌, ◌++◌, Option};
ghost use Rattle.actor_names.specs.declared.actor_key.ActorKey.{ActorKey};
ghost use Rattle.actor_names.specs.declared.member.Member.{Member};
ghost use Rattle.place_table.specs.declared.host.HostInfo.{HostInfo};
ghost use Rattle.place_table.specs.Hosts.{PlacementTable};
ghost use Rattle.turn_core.specs.CellSound.{In};
ghost use Rattle.round_core.specs.Room.{last_version};
ghost use Rattle.placement_core.specs.Placement.{room_of};
ghost use Rattle.world_events.specs.declared.event.WorldEvent.{WorldEvent};
ghost use Rattle.world_events.specs.declared.settings.WorldSettings.{WorldSettings};
ghost use Rattle.cluster_model.specs.World.{opening_cluster, cluster_run, cluster_step};
ghost use Rattle.cluster_model.specs.Spaces.{seen_in};
ghost use Rattle.cluster_model.specs.Invariant.{WasTold};
ghost use Rattle.cluster_model.specs.Targets.{round_targets, HasTargets, BeginsNone, BeginsOne};

/// Whatever the owners of actors and their parts are, this holds in each space after every list of events, with any
/// deliveries, losses, repeats, joins, leaves and restarts. There is no premise. `round_targets` gives the targets with
/// which the round of a version began, those too that are no members any more.
///
/// `sent`: each Lock, Update or Unlock message of a version went to one of the targets with which the round of that
/// version began, whether the round still runs or not. `targets`: while a round runs, a member is a target of the room
/// exactly if it is among those with which the round began; so only those that have left are missing. `begun`: an event
/// begins no round in a space, or it begins one, whose targets are all members that the space's room has after it.
pub fn targets_law()
    ensures sent { (owner : PlacementTable → ActorKey → Option HostInfo) (part_of : ActorKey → ℕ → ℕ) (settings : WorldSettings) (events : List WorldEvent) (space : List ℕ) (version : ℕ) (m : Member) →
        WasTold (seen_in (cluster_run owner part_of (opening_cluster settings) events) space).messages m version → In m (round_targets owner part_of settings events space version) }
    ensures targets { (owner : PlacementTable → ActorKey → Option HostInfo) (part_of : ActorKey → ℕ → ℕ) (settings : WorldSettings) (events : List WorldEvent) (space : List ℕ) →
        let room = room_of (cluster_run owner part_of (opening_cluster settings) events).placement space in
        HasTargets room (round_targets owner part_of settings events space (last_version room)) }
    ensures begun { (owner : PlacementTable → ActorKey → Option HostInfo) (part_of : ActorKey → ℕ → ℕ) (settings : WorldSettings) (events : List WorldEvent) (event : WorldEvent) (space : List ℕ) →
        let old = room_of (cluster_run owner part_of (opening_cluster settings) events).placement space in
        let new = room_of (cluster_step owner part_of (cluster_run owner part_of (opening_cluster settings) events) event).world.placement space in
        BeginsNone old new ⊎ BeginsOne old new (round_targets owner part_of settings (events ++ event ∷ []) space (last_version new)) }
{}
