// What leases promise.
ghost use Rattle.std.specs.Prelude.{◌≡◌, List, Option, ℕ, Err};
ghost use Rattle.actor_names.specs.declared.actor_key.ActorKey.{ActorKey};
ghost use Rattle.actor_names.specs.declared.member.Member.{Member};
ghost use Rattle.place_table.specs.declared.host.HostInfo.{HostInfo};
ghost use Rattle.place_table.specs.Hosts.{PlacementTable};
ghost use Rattle.turn_core.specs.CellSound.{In};
ghost use Rattle.world_events.specs.declared.settings.WorldSettings.{WorldSettings};
ghost use Rattle.placement_core.specs.Placement.{late_in};
ghost use Rattle.cluster_model.specs.Spaces.{KeepsToSpace};
ghost use Rattle.cluster_model.specs.Invariant.{AllStopped, IsActiveOnce};
ghost use Rattle.cluster_model.specs.Cluster.{ClusterInvariant};
ghost use Rattle.lease_core.specs.declared.event.LeaseEvent.{LeaseEvent as Happening};
ghost use Rattle.lease_core.specs.declared.error.LeaseError.{LeaseError};
ghost use Rattle.lease_core.specs.Leased.{opening_leased, leased_step, leased_run, IsReachedLease, LateAreStopped, OnlyLostIsDishonest, IsBookOf};

use crate::world::LeaseWorld;

/// Whatever the owners of actors and their parts are, this holds after every list of events of a world with leases, with
/// any deliveries, losses, repeats, joins, leaves and restarts, in any number of spaces, if no table gives an actor of
/// another space an owner (`KeepsToSpace`). The premises are in the events: clocks keep the rates, since another pass is
/// refused, and a pass acts on the leases that have ended when it is over.
///
/// `reached`: this world is what such a list leads to. `late`: so each member that a Tick of the placement would drop now
/// has only stopped parts. `stopped`: the same after every list of events. `honest`: so only a `lost` is refused because
/// its member has a running part, and no Tick of the placement is. `refused`: a refused event changes nothing.
/// `invariant`: the cluster invariant, with single activation and isolated turns. `once`: no actor is active on two
/// members. `book`: what is kept of members, messages and calls is that of the world (`IsBookOf`), so an event's moment is
/// that of the member at which it happens.
pub fn lease_law(world: &LeaseWorld)
    ensures reached { IsReachedLease world.now }
    ensures late { (m : Member) → In m (late_in world.now.world.placement.rooms world.now.book.clock) → AllStopped world.now.world.parts m }
    ensures stopped { (owner : PlacementTable → ActorKey → Option HostInfo) (part_of : ActorKey → ℕ → ℕ) (settings : WorldSettings) (events : List Happening) → KeepsToSpace owner →
        LateAreStopped (leased_run owner part_of (opening_leased settings) events) }
    ensures honest { (owner : PlacementTable → ActorKey → Option HostInfo) (part_of : ActorKey → ℕ → ℕ) (settings : WorldSettings) (events : List Happening) (event : Happening) → KeepsToSpace owner →
        OnlyLostIsDishonest event (leased_step owner part_of (leased_run owner part_of (opening_leased settings) events) event).outcome }
    ensures refused { (owner : PlacementTable → ActorKey → Option HostInfo) (part_of : ActorKey → ℕ → ℕ) (settings : WorldSettings) (events : List Happening) (event : Happening) (error : LeaseError) →
        (leased_step owner part_of (leased_run owner part_of (opening_leased settings) events) event).outcome ≡ Err error →
        (leased_step owner part_of (leased_run owner part_of (opening_leased settings) events) event).cluster ≡ leased_run owner part_of (opening_leased settings) events }
    ensures invariant { (owner : PlacementTable → ActorKey → Option HostInfo) (part_of : ActorKey → ℕ → ℕ) (settings : WorldSettings) (events : List Happening) → KeepsToSpace owner →
        ClusterInvariant owner part_of (leased_run owner part_of (opening_leased settings) events).world }
    ensures once { (owner : PlacementTable → ActorKey → Option HostInfo) (part_of : ActorKey → ℕ → ℕ) (settings : WorldSettings) (events : List Happening) → KeepsToSpace owner →
        IsActiveOnce (leased_run owner part_of (opening_leased settings) events).world.parts }
    ensures book { (owner : PlacementTable → ActorKey → Option HostInfo) (part_of : ActorKey → ℕ → ℕ) (settings : WorldSettings) (events : List Happening) → KeepsToSpace owner →
        IsBookOf (leased_run owner part_of (opening_leased settings) events).world (leased_run owner part_of (opening_leased settings) events).book }
{
    world.is_reached();
}
