// Replies of the placement as the node gives them, with the hosts that they need.
ghost use Rattle.std.specs.Prelude.{◌≡◌, ◌<◌, IfOk, Some, length, map};
ghost use Rattle.std.specs.List.{slice_get};
ghost use Rattle.placement_core.specs.Placement.{SpaceRoom};
ghost use Rattle.wire_fields.specs.Parts.{space_name};
ghost use Rattle.placement_node.specs.Ranges.{NumbersFit, ReplyFits, StateFits};
ghost use Rattle.placement_node.specs.Replies.{event_space, refused, reply_of, seen_room};

use crate::reply::{NodeReply, RoomSeen, SeenRooms};
use crate::round::round_at;
use actor_names::{OutOfMemory, Space, default_space};
use frame_wire::{Frame, Hosts, Refusal};
use place_table::HostInfo;
use placement_core::Placement;
use round_core::{PlaceEvent, PlaceReply};
use std::alloc::Global;

/// The space whose room an event is about.
pub(crate) fn event_space(event: &PlaceEvent) -> Space
    ensures { result ≡ event_space event.now }
{
    match event {
        PlaceEvent::Register { host } => host.member.space,
        PlaceEvent::Beat { member } => member.space,
        PlaceEvent::Ack {
            member,
            stage: _,
            version: _,
        } => member.space,
        PlaceEvent::Leave { member } => member.space,
        PlaceEvent::Lost { member } => member.space,
        PlaceEvent::Tick => default_space(),
        PlaceEvent::Look => default_space(),
    }
}

/// A refusal.
pub(crate) fn refused(refusal: Refusal) -> NodeReply
    ensures { result ≡ refused refusal }
{
    NodeReply::Message {
        frame: Frame::Refused { refusal },
    }
}

// Equal hosts.
fn copy_hosts(alloc: Global, hosts: &[HostInfo]) -> Result<Hosts, OutOfMemory>
    ensures { IfOk result (λ copy. copy ≡ hosts.now) }
{
    let mut items = Vec::with_capacity(alloc, hosts.len())?;
    for host in hosts.iter() {
        items.push(host.copy(alloc)?)?;
    }
    Ok(Hosts::from_vec(items))
}

// What is seen of the room at this index.
fn seen_at(alloc: Global, placement: &Placement, at: usize) -> Result<RoomSeen, OutOfMemory>
    requires { at < length placement.now.state.rooms }
    ensures { IfOk result (λ seen. (r : SpaceRoom) → slice_get placement.now.state.rooms at ≡ Some r → seen ≡ seen_room r) }
{
    let members = copy_hosts(alloc, placement.members_at(at))?;
    Ok(RoomSeen {
        space: placement.space_at(at),
        members,
        version: placement.last_version_at(at),
        round: round_at(alloc, placement, at)?,
    })
}

/// What is seen of all rooms.
pub(crate) fn seen_rooms(alloc: Global, placement: &Placement) -> Result<SeenRooms, OutOfMemory>
    ensures { IfOk result (λ rooms. rooms ≡ map seen_room placement.now.state.rooms) }
{
    let count = placement.rooms();
    let mut items = Vec::with_capacity(alloc, count)?;
    for at in 0..count {
        items.push(seen_at(alloc, placement, at)?)?;
    }
    Ok(SeenRooms::from_vec(items))
}

// The reply of the placement as the node gives it.
fn given(
    alloc: Global,
    placement: &Placement,
    space: &Space,
    reply: PlaceReply,
) -> Result<NodeReply, OutOfMemory>
    ensures { IfOk result (λ answer. answer ≡ reply_of placement.now.state space.now reply) }
{
    let frame = match reply {
        PlaceReply::Lock { version } => Frame::Lock { version },
        PlaceReply::Update { version } => {
            let hosts = copy_hosts(alloc, placement.table_hosts(space))?;
            Frame::Update { version, hosts }
        }
        PlaceReply::Unlock { version } => Frame::Unlock { version },
        PlaceReply::Idle => Frame::Idle,
        PlaceReply::Gone => Frame::Gone,
        PlaceReply::Ticked { dropped } => return Ok(NodeReply::Ticked { dropped }),
        PlaceReply::Looked => {
            let rooms = seen_rooms(alloc, placement)?;
            return Ok(NodeReply::Seen { rooms });
        }
        PlaceReply::StaleBoot { greatest } => {
            return Ok(refused(Refusal::StaleBoot { greatest }));
        }
        PlaceReply::NodeBusy { boot } => return Ok(refused(Refusal::NodeBusy { boot })),
        PlaceReply::NotMember { greatest } => {
            return Ok(refused(Refusal::NotMember { greatest }));
        }
        PlaceReply::SpacesFull { spaces } => {
            return Ok(refused(Refusal::SpacesFull { spaces }));
        }
        PlaceReply::Full { members, nodes: _ } => return Ok(refused(Refusal::Full { members })),
        PlaceReply::OutOfMemory => return Ok(refused(Refusal::OutOfMemory)),
    };
    Ok(NodeReply::Message { frame })
}

/// The reply of the placement as the node gives it, to an event that is about the room of this space.
pub(crate) fn reply_of(
    alloc: Global,
    placement: &Placement,
    space: &Space,
    reply: PlaceReply,
) -> Result<NodeReply, OutOfMemory>
    requires named { space_name.Fits space.now }
    requires kept { StateFits placement.now.state }
    requires numbers { NumbersFit reply }
    ensures is { IfOk result (λ answer. answer ≡ reply_of placement.now.state space.now reply) }
    ensures sent { IfOk result ReplyFits }
{
    let _hosts = placement.table_hosts(space);
    given(alloc, placement, space, reply)
}
