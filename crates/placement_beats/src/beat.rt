// A turn with the placement.
ghost use Rattle.std.specs.Prelude.{◌≡◌, ◌⊎◌, ◌<◌, ◌≤◌, length, None};
ghost use Rattle.frame_wire.specs.declared.frame.Frame.TheVariants as frames;
ghost use Rattle.frame_wire.specs.Frames.{payload, IsFrame};
ghost use Rattle.sidecar_node.specs.Nodes.{host_of, part_gates, IsSeatsOf};
ghost use Rattle.placement_beats.specs.Answers.{hindrance};
ghost use Rattle.placement_beats.specs.Replies.{reply_fault, acked_after};
ghost use Rattle.placement_beats.specs.Beats.{Hears, AfterTicks, HeartbeatTurn, IsIdle, TurnCause, failed_end};

use crate::answers::{give_all, hindrance};
use crate::book::{PlacementBook, TurnEnd};
use crate::heartbeat::{Beat, heartbeat};
use crate::reply::{obey, reply_fault};
use actor_ports::{Clock, Conn};
use exchanges::FrameEnd;
use frame_wire::Frame;
use member_core::Ack;
use part_core::PartReply;
use sidecar_node::{RoundEvent, Seats, SidecarNode};
use std::alloc::Global;
use std::sync::Wait;
use step_gate::Spent;

/// How a turn ends if no frame came.
pub(crate) fn failed_end(end: FrameEnd) -> TurnEnd
    ensures { result ≡ failed_end end }
{
    match end {
        FrameEnd::NoFrame { at } => TurnEnd::BadReply { at },
        FrameEnd::ConnFault => TurnEnd::ConnFault,
        FrameEnd::OutOfMemory => TurnEnd::OutOfMemory,
    }
}

// The last acknowledgement sent and not refused, after a reply.
fn acked_after(acked: Option<Ack>, sent: Option<Ack>, reply: &Frame) -> Option<Ack>
    ensures { result ≡ acked_after acked sent reply.now }
{
    match reply {
        Frame::Refused { .. } => acked,
        _ => match sent {
            None => acked,
            Some(ack) => Some(ack),
        },
    }
}

// What follows a frame that was read at this moment.
fn hear<R: Wait>(
    rt: &R,
    alloc: Global,
    node: &SidecarNode,
    seats: &mut Seats,
    book: &mut PlacementBook,
    ack: Option<Ack>,
    reply: &Frame,
    now: u64,
) -> TurnEnd
    requires seats { IsSeatsOf node.now seats.old }
    requires frame { IsFrame reply.now }
    ensures seats { IsSeatsOf node.now seats.new }
    ensures hears { Hears (host_of node.now).member.space (length (part_gates node.now)) (reply_fault (host_of node.now).member.space reply.now) ack reply.now now book.old book.new seats.old seats.new result }
{
    match reply_fault(&node.host().member.space, reply) {
        Some(at) => TurnEnd::BadReply { at },
        None => {
            let acked = acked_after(book.acked, ack, reply);
            *book = PlacementBook { acked, heard: now };
            obey(rt, alloc, node, seats, reply, now)
        }
    }
}

// What follows the Ticks if nothing hinders.
fn after_ticks<R: Wait, C: Conn, K: Clock>(
    rt: &R,
    alloc: Global,
    node: &SidecarNode,
    seats: &mut Seats,
    book: &mut PlacementBook,
    ticks: &[Result<PartReply, Spent>],
    conn: &mut C,
    clock: &mut K,
) -> TurnEnd
    requires seats { IsSeatsOf node.now seats.old }
    requires host { payload.Fits (frames.Register (host_of node.now)) }
    requires none { hindrance ticks.now ≡ None }
    requires each { length ticks.now ≡ length (part_gates node.now) }
    ensures seats { IsSeatsOf node.now seats.new }
    ensures beats { AfterTicks None (host_of node.now) (length (part_gates node.now)) ticks.now (K.shown clock.new) book.old book.new seats.old seats.new (C.read_traffic conn.old) (C.read_traffic conn.new) result }
    ensures cause { TurnCause (C.read_faults conn.old) (C.read_faults conn.new) result }
    ensures clock { K.shown clock.old ≤ K.shown clock.new }
{
    let _parts = node.parts();
    let beat = heartbeat(alloc, node.host(), book.acked, ticks, conn);
    let Beat { ack, got } = beat;
    match got {
        Err(end) => failed_end(end),
        Ok(reply) => {
            let now = clock.now_ms();
            hear(rt, alloc, node, seats, book, ack, &reply, now)
        }
    }
}

// What follows the Ticks.
fn go_on<R: Wait, C: Conn, K: Clock>(
    rt: &R,
    alloc: Global,
    node: &SidecarNode,
    seats: &mut Seats,
    book: &mut PlacementBook,
    ticks: &[Result<PartReply, Spent>],
    conn: &mut C,
    clock: &mut K,
) -> TurnEnd
    requires seats { IsSeatsOf node.now seats.old }
    requires host { payload.Fits (frames.Register (host_of node.now)) }
    requires each { length ticks.now ≡ length (part_gates node.now) }
    ensures seats { IsSeatsOf node.now seats.new }
    ensures goes_on { AfterTicks (hindrance ticks.now) (host_of node.now) (length (part_gates node.now)) ticks.now (K.shown clock.new) book.old book.new seats.old seats.new (C.read_traffic conn.old) (C.read_traffic conn.new) result }
    ensures cause { TurnCause (C.read_faults conn.old) (C.read_faults conn.new) result }
    ensures clock { K.shown clock.old ≤ K.shown clock.new }
{
    match hindrance(ticks) {
        Some(end) => end,
        None => after_ticks(rt, alloc, node, seats, book, ticks, conn, clock),
    }
}

// A turn over seats that are lent.
fn turn_in<R: Wait, C: Conn, K: Clock>(
    rt: &R,
    alloc: Global,
    node: &SidecarNode,
    seats: &mut Seats,
    book: &mut PlacementBook,
    conn: &mut C,
    clock: &mut K,
) -> TurnEnd
    requires seats { IsSeatsOf node.now seats.old }
    requires host { payload.Fits (frames.Register (host_of node.now)) }
    ensures seats { IsSeatsOf node.now seats.new }
    ensures turn { IsIdle book.old book.new seats.old seats.new (C.read_traffic conn.old) (C.read_traffic conn.new) result ⊎ HeartbeatTurn node.now (K.shown clock.old) (K.shown clock.new) book.old book.new seats.old seats.new (C.read_traffic conn.old) (C.read_traffic conn.new) result }
    ensures cause { TurnCause (C.read_faults conn.old) (C.read_faults conn.new) result }
    ensures clock { K.shown clock.old ≤ K.shown clock.new }
{
    let now = clock.now_ms();
    match give_all(rt, alloc, node, seats, &RoundEvent::Tick { now }) {
        Err(_) => TurnEnd::OutOfMemory,
        Ok(ticks) => go_on(
            rt,
            alloc,
            node,
            seats,
            book,
            ticks.saids.as_slice(),
            conn,
            clock,
        ),
    }
}

/// One turn with the placement: a Tick on each part in order, one frame sent, one frame read, and by it one event on
/// each part or none. The frame is the acknowledgement that the receipts of these Ticks justify, if it differs from the
/// last one; else Register if they justify none; else Beat. The book is as before, unless a reply was read: then the
/// moment is heard, and an acknowledgement sent counts unless it was refused. The host must be one that a Register frame
/// can carry.
///
/// `OutOfMemory` may leave an Update with the first parts alone; the next turn brings it again.
pub fn placement_turn<R: Wait, C: Conn, K: Clock>(
    rt: &R,
    alloc: Global,
    node: &SidecarNode,
    mut seats: Seats,
    book: &mut PlacementBook,
    conn: &mut C,
    clock: &mut K,
) -> (Seats, TurnEnd)
    requires seats { IsSeatsOf node.now seats }
    requires host { payload.Fits (frames.Register (host_of node.now)) }
    ensures seats { IsSeatsOf node.now result.0 }
    ensures turn { IsIdle book.old book.new seats result.0 (C.read_traffic conn.old) (C.read_traffic conn.new) result.1 ⊎ HeartbeatTurn node.now (K.shown clock.old) (K.shown clock.new) book.old book.new seats result.0 (C.read_traffic conn.old) (C.read_traffic conn.new) result.1 }
    ensures cause { TurnCause (C.read_faults conn.old) (C.read_faults conn.new) result.1 }
    ensures clock { K.shown clock.old ≤ K.shown clock.new }
{
    let end = turn_in(rt, alloc, node, &mut seats, book, conn, clock);
    (seats, end)
}
