// What is seen of the round of a room.
ghost use Rattle.std.specs.Prelude.{◌≡◌, ◌<◌, Some, IfOk, length};
ghost use Rattle.std.specs.List.{slice_get};
ghost use Rattle.placement_core.specs.Placement.{SpaceRoom};
ghost use Rattle.placement_node.specs.Replies.{awaited, awaited_of, seen_round};

use crate::reply::{Awaited, AwaitedMembers, RoundSeen};
use actor_names::OutOfMemory;
use place_table::HostInfo;
use placement_core::Placement;
use round_core::RoundPhase;
use std::alloc::Global;

// How the member of this host is told.
fn awaited(host: &HostInfo) -> Awaited
    ensures { result ≡ awaited host.now }
{
    Awaited {
        node: host.member.node,
        boot: host.member.boot,
        address: host.address,
    }
}

// The members that the round of the room at this index waits for.
fn awaited_at(
    alloc: Global,
    placement: &Placement,
    at: usize,
) -> Result<AwaitedMembers, OutOfMemory>
    requires { at < length placement.now.state.rooms }
    ensures { IfOk result (λ members. (r : SpaceRoom) → slice_get placement.now.state.rooms at ≡ Some r → members ≡ awaited_of r.room.members) }
{
    let hosts = placement.members_at(at);
    let mut items = Vec::new(alloc);
    for member in 0..hosts.len() {
        if placement.is_pending(at, member) {
            items.push(awaited(&hosts[member]))?;
        }
    }
    Ok(AwaitedMembers::from_vec(items))
}

/// What is seen of the round of the room at this index; none if no round runs there.
pub(crate) fn round_at(
    alloc: Global,
    placement: &Placement,
    at: usize,
) -> Result<Option<RoundSeen>, OutOfMemory>
    requires { at < length placement.now.state.rooms }
    ensures { IfOk result (λ round. (r : SpaceRoom) → slice_get placement.now.state.rooms at ≡ Some r → round ≡ seen_round r.room r.room.phase) }
{
    match placement.phase_at(at) {
        RoundPhase::Quiet => Ok(None),
        RoundPhase::Running { stage } => {
            let awaited = awaited_at(alloc, placement, at)?;
            let version = placement.last_version_at(at);
            Ok(Some(RoundSeen {
                version,
                stage,
                awaited,
            }))
        }
    }
}
