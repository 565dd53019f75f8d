// The turn in which a sidecar leaves.
ghost use Rattle.std.specs.Prelude.{◌≡◌, ◌⊎◌, ◌<◌, ◌≤◌, length, Some, None, Ok, true, IsTrue, IfOk};
ghost use Rattle.http_edge.specs.Carry.{nothing, Over};
ghost use Rattle.member_core.specs.Answers.{leave_answer};
ghost use Rattle.frame_wire.specs.declared.frame.Frame.TheVariants as frames;
ghost use Rattle.frame_wire.specs.Frames.{payload};
ghost use Rattle.sidecar_node.specs.Turns.{first_spent};
ghost use Rattle.sidecar_node.specs.Nodes.{host_of, part_gates, IsSeatsOf};
ghost use Rattle.placement_beats.specs.Answers.{receipts_of};
ghost use Rattle.placement_beats.specs.Beats.{AfterStops, LeaveTurn, TurnCause, leave_end};

use crate::answers::{first_spent, give_all, receipts_of};
use crate::beat::failed_end;
use crate::book::TurnEnd;
use crate::heartbeat::send_frame;
use crate::reply::{reply_end, reply_fault};
use actor_names::Space;
use actor_ports::Conn;
use exchanges::FrameEnd;
use frame_wire::Frame;
use lists_and_limits::OutOfMemory;
use member_core::may_leave;
use part_core::PartReply;
use place_table::HostInfo;
use sidecar_node::{RoundEvent, Seats, SidecarNode};
use std::alloc::Global;
use std::sync::Wait;
use step_gate::Spent;

// Whether all receipts in the answers are of stopped parts of the host's member. If there is no memory for the
// receipts, they are not taken to be.
fn are_stopped(alloc: Global, host: &HostInfo, stops: &[Result<PartReply, Spent>]) -> bool
    ensures { IsTrue result → leave_answer host.now.member (receipts_of stops.now) ≡ Ok true }
{
    match receipts_of(alloc, stops) {
        Err(_) => false,
        Ok(receipts) => {
            if receipts.is_empty() {
                return false;
            }
            match may_leave(&host.member, receipts.as_slice()) {
                Ok(stopped) => stopped,
                Err(_) => false,
            }
        }
    }
}

// How the turn ended, given the frame that was read.
fn leave_end(space: &Space, got: &Result<Frame, FrameEnd>) -> TurnEnd
    ensures { result ≡ leave_end space.now got.now }
{
    match got {
        Err(end) => failed_end(*end),
        Ok(reply) => match reply_fault(space, reply) {
            Some(at) => TurnEnd::BadReply { at },
            None => reply_end(reply),
        },
    }
}

// What follows the stops if each gate took one. A part that was told to stop has stopped, so that the member may leave.
fn say_leave<C: Conn>(
    alloc: Global,
    host: &HostInfo,
    stops: &[Result<PartReply, Spent>],
    conn: &mut C,
) -> TurnEnd
    requires { payload.Fits (frames.Register host.now) }
    ensures leaves { AfterStops None host.now stops.now (C.read_traffic conn.old) (C.read_traffic conn.new) result }
    ensures cause { TurnCause (C.read_faults conn.old) (C.read_faults conn.new) result }
{
    if !are_stopped(alloc, host, stops) {
        return TurnEnd::OutOfMemory;
    }
    let leave = Frame::Leave {
        member: host.member,
    };
    let got = send_frame(alloc, &leave, conn);
    leave_end(&host.member.space, &got)
}

// What follows the stops.
fn after_stops<C: Conn>(
    alloc: Global,
    host: &HostInfo,
    stops: &[Result<PartReply, Spent>],
    conn: &mut C,
) -> TurnEnd
    requires { payload.Fits (frames.Register host.now) }
    ensures leaves { AfterStops (first_spent stops.now) host.now stops.now (C.read_traffic conn.old) (C.read_traffic conn.new) result }
    ensures cause { TurnCause (C.read_faults conn.old) (C.read_faults conn.new) result }
{
    match first_spent(stops) {
        Some(spent) => TurnEnd::Spent { count: spent.count },
        None => say_leave(alloc, host, stops, conn),
    }
}

// The turn over seats that are lent.
fn leave_in<R: Wait, C: Conn>(
    rt: &R,
    alloc: Global,
    node: &SidecarNode,
    seats: &mut Seats,
    conn: &mut C,
) -> TurnEnd
    requires seats { IsSeatsOf node.now seats.old }
    requires host { payload.Fits (frames.Register (host_of node.now)) }
    ensures seats { IsSeatsOf node.now seats.new }
    ensures turn { ((seats.new ≡ seats.old) × Over (C.read_traffic conn.old) (C.read_traffic conn.new) nothing × (result ≡ TurnEnd.OutOfMemory)) ⊎ LeaveTurn node.now seats.old seats.new (C.read_traffic conn.old) (C.read_traffic conn.new) result }
    ensures cause { TurnCause (C.read_faults conn.old) (C.read_faults conn.new) result }
{
    match give_all(rt, alloc, node, seats, &RoundEvent::StopPart) {
        Err(_) => TurnEnd::OutOfMemory,
        Ok(stops) => after_stops(alloc, node.host(), stops.saids.as_slice(), conn),
    }
}

/// A sidecar leaves: one StopPart on each part in order; then, since the parts have stopped, one Leave is sent and one
/// frame is read. The answers are those of `placement_turn`, but `Stopped` isn't among them. The host must be one that a
/// Register frame can carry.
pub fn leave_turn<R: Wait, C: Conn>(
    rt: &R,
    alloc: Global,
    node: &SidecarNode,
    mut seats: Seats,
    conn: &mut C,
) -> (Seats, TurnEnd)
    requires seats { IsSeatsOf node.now seats }
    requires host { payload.Fits (frames.Register (host_of node.now)) }
    ensures seats { IsSeatsOf node.now result.0 }
    ensures turn { ((result.0 ≡ seats) × Over (C.read_traffic conn.old) (C.read_traffic conn.new) nothing × (result.1 ≡ TurnEnd.OutOfMemory)) ⊎ LeaveTurn node.now seats result.0 (C.read_traffic conn.old) (C.read_traffic conn.new) result.1 }
    ensures cause { TurnCause (C.read_faults conn.old) (C.read_faults conn.new) result.1 }
{
    let end = leave_in(rt, alloc, node, &mut seats, conn);
    (seats, end)
}
