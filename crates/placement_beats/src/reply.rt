// What the placement's reply means, and how the parts are given it.
ghost use Rattle.std.specs.Prelude.{◌≡◌, ◌≤◌, ◌^◌, true, false, length, Some, IfOk, IfSome};
ghost use Rattle.part_model.specs.Rooms.{IsInRange};
ghost use Rattle.frame_wire.specs.Frames.{IsFrame};
ghost use Rattle.sidecar_node.specs.Rounds.{part_event, MayWantMemory};
ghost use Rattle.sidecar_node.specs.Nodes.{host_of, part_gates, IsSeatsOf};
ghost use Rattle.placement_beats.specs.Answers.{hindrance, end_or};
ghost use Rattle.placement_beats.specs.Replies.{is_foreign, reply_fault, refused_end, reply_end, IsTableOf, Orders};
ghost use Rattle.placement_beats.specs.Beats.{GivesOrNot, Obeys};

use crate::answers::{Answers, end_or, give_all, hindrance};
use crate::book::TurnEnd;
use actor_names::Space;
use frame_wire::{Frame, Refusal};
use lists_and_limits::OutOfMemory;
use place_table::{HostInfo, Table, build_table};
use round_core::PlaceReply;
use sidecar_node::{RoundEvent, Seats, SidecarNode};
use std::alloc::Global;
use std::sync::Wait;

// Where the first host stands in an Update frame: behind length, kind, version and count.
const FIRST_HOST: u64 = 15;

// Where the kind of a frame stands.
const KIND: u64 = 4;

// Whether the hosts are of another space than this one.
fn is_foreign(space: &Space, hosts: &[HostInfo]) -> bool
    ensures { result ≡ is_foreign space.now hosts.now }
{
    match hosts {
        [] => false,
        [first, ..] => {
            if first.member.space == *space {
                false
            } else {
                true
            }
        }
    }
}

/// The byte at which a frame is no reply to a member of this space; `None` if it is one.
pub(crate) fn reply_fault(space: &Space, frame: &Frame) -> Option<u64>
    ensures { result ≡ reply_fault space.now frame.now }
{
    match frame {
        Frame::Update { hosts, .. } => {
            if is_foreign(space, hosts.as_slice()) {
                Some(FIRST_HOST)
            } else {
                None
            }
        }
        Frame::Lock { .. }
        | Frame::Unlock { .. }
        | Frame::Idle
        | Frame::Refused { .. }
        | Frame::Gone => None,
        Frame::Register { .. }
        | Frame::Beat { .. }
        | Frame::Ack { .. }
        | Frame::Leave { .. }
        | Frame::Mirror { .. }
        | Frame::Mirrored { .. }
        | Frame::Command { .. }
        | Frame::FencedTx { .. }
        | Frame::Answer { .. } => Some(KIND),
    }
}

// How a turn ends by a refusal.
fn refused_end(refusal: Refusal) -> TurnEnd
    ensures { result ≡ refused_end refusal }
{
    match refusal {
        Refusal::StaleBoot { greatest } => TurnEnd::Refused {
            reply: PlaceReply::StaleBoot { greatest },
        },
        Refusal::NodeBusy { boot } => TurnEnd::Refused {
            reply: PlaceReply::NodeBusy { boot },
        },
        Refusal::NotMember { greatest } => TurnEnd::Refused {
            reply: PlaceReply::NotMember { greatest },
        },
        Refusal::Full { members } => TurnEnd::Refused {
            reply: PlaceReply::Full { members, nodes: 0 },
        },
        Refusal::DiskFault => TurnEnd::NodeRefused { code: 5, number: 0 },
        Refusal::Reopen => TurnEnd::NodeRefused { code: 6, number: 0 },
        Refusal::OutOfMemory => TurnEnd::Refused {
            reply: PlaceReply::OutOfMemory,
        },
        Refusal::JournalFull { len } => TurnEnd::NodeRefused {
            code: 8,
            number: len,
        },
        Refusal::SpacesFull { spaces } => TurnEnd::Refused {
            reply: PlaceReply::SpacesFull { spaces },
        },
    }
}

/// How a turn ends by a reply.
pub(crate) fn reply_end(reply: &Frame) -> TurnEnd
    ensures { result ≡ reply_end reply.now }
{
    match reply {
        Frame::Refused { refusal } => refused_end(*refusal),
        _ => TurnEnd::Next,
    }
}

// The table of these hosts. Hosts of one space, as a frame has them, have no fault, so that only memory may be missing.
fn table_of(
    alloc: Global,
    space: &Space,
    version: u64,
    hosts: &[HostInfo],
) -> Result<Table, OutOfMemory>
    ensures { IfOk result (λ table. IsTableOf space.now version hosts.now table) }
{
    match build_table(alloc, space, version, hosts) {
        Ok(table) => Ok(table),
        Err(_) => Err(OutOfMemory),
    }
}

// The event that a reply has for each part, if it has one.
fn order_of(
    alloc: Global,
    space: &Space,
    reply: &Frame,
    now: u64,
) -> Result<Option<RoundEvent>, OutOfMemory>
    requires { IsFrame reply.now }
    ensures orders { IfOk result (λ order. Orders space.now now reply.now order) }
    ensures range { IfOk result (λ order. IfSome order (λ event. IsInRange (part_event event))) }
{
    match reply {
        Frame::Lock { version } => Ok(Some(RoundEvent::Lock { version: *version })),
        Frame::Unlock { version } => Ok(Some(RoundEvent::Unlock { version: *version })),
        Frame::Update { version, hosts } => {
            match table_of(alloc, space, *version, hosts.as_slice()) {
                Err(_) => Err(OutOfMemory),
                Ok(table) => Ok(Some(RoundEvent::Update { table, now })),
            }
        }
        _ => Ok(None),
    }
}

// How a turn ends after the parts were given an event.
fn given_end(answers: &Answers, done: TurnEnd) -> TurnEnd
    ensures all { answers.now.whole ≡ true → result ≡ end_or (hindrance answers.now.saids.items) done }
    ensures some { answers.now.whole ≡ false → result ≡ end_or (hindrance answers.now.saids.items) TurnEnd.OutOfMemory }
{
    if answers.whole {
        end_or(hindrance(answers.saids.as_slice()), done)
    } else {
        end_or(hindrance(answers.saids.as_slice()), TurnEnd::OutOfMemory)
    }
}

// Gives each part the event.
fn give_event<R: Wait>(
    rt: &R,
    alloc: Global,
    node: &SidecarNode,
    seats: &mut Seats,
    event: &RoundEvent,
    done: TurnEnd,
) -> TurnEnd
    requires seats { IsSeatsOf node.now seats.old }
    requires range { IsInRange (part_event event.now) }
    ensures seats { IsSeatsOf node.now seats.new }
    ensures gives { GivesOrNot (length (part_gates node.now)) (Some event.now) done seats.old seats.new result }
{
    match give_all(rt, alloc, node, seats, event) {
        Err(_) => TurnEnd::OutOfMemory,
        Ok(answers) => given_end(&answers, done),
    }
}

// Gives each part the event, if there is one.
fn give_order<R: Wait>(
    rt: &R,
    alloc: Global,
    node: &SidecarNode,
    seats: &mut Seats,
    order: Option<RoundEvent>,
    done: TurnEnd,
) -> TurnEnd
    requires seats { IsSeatsOf node.now seats.old }
    requires range { IfSome order (λ event. IsInRange (part_event event)) }
    ensures seats { IsSeatsOf node.now seats.new }
    ensures gives { GivesOrNot (length (part_gates node.now)) order done seats.old seats.new result }
{
    match order {
        None => done,
        Some(event) => give_event(rt, alloc, node, seats, &event, done),
    }
}

/// Gives the parts what the reply has for them.
pub(crate) fn obey<R: Wait>(
    rt: &R,
    alloc: Global,
    node: &SidecarNode,
    seats: &mut Seats,
    reply: &Frame,
    now: u64,
) -> TurnEnd
    requires seats { IsSeatsOf node.now seats.old }
    requires frame { IsFrame reply.now }
    ensures seats { IsSeatsOf node.now seats.new }
    ensures obeys { Obeys (host_of node.now).member.space (length (part_gates node.now)) reply.now now seats.old seats.new result }
{
    match order_of(alloc, &node.host().member.space, reply, now) {
        Err(_) => TurnEnd::OutOfMemory,
        Ok(order) => give_order(rt, alloc, node, seats, order, reply_end(reply)),
    }
}
