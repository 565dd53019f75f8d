// The placement's node, asked by frames.
ghost use Rattle.std.specs.Prelude.{◌≡◌, Option, IfSome};
ghost use Rattle.frame_wire.specs.Frames.{IsFrame};
ghost use Rattle.step_gate.specs.Gates.{IsSeatOf};
ghost use Rattle.frame_session.specs.AtStepGate.{StepsMade, steps_seen};
ghost use Rattle.frame_session.specs.Sessions.{IsSession, SessionCause};
ghost use Rattle.placement_node.specs.Node.{NodeAllows};
ghost use Rattle.placement_node.specs.Ranges.{EventFits};
ghost use Rattle.placement_sessions.specs.Placements.{place_event, loses_disk, node_event, node_answer, node_breaks};

use actor_ports::{Clock, Conn, SessionEnd};
use disk_model::Disk;
use frame_session::{AnswersFrames, frame_session};
use frame_wire::{Frame, Refusal};
use placement_node::{NodeEvent, NodeReply, PlacementNode};
use round_core::PlaceEvent;
use std::alloc::Global;
use std::sync::Wait;
use step_gate::{Gate, Seat};

// What a frame asks of the placement; `None` if such a frame isn't sent to it.
fn place_event(frame: Frame) -> Option<PlaceEvent>
    requires { IsFrame frame }
    ensures event { result ≡ place_event frame }
    ensures fits { IfSome result EventFits }
{
    match frame {
        Frame::Register { host } => Some(PlaceEvent::Register { host }),
        Frame::Beat { member } => Some(PlaceEvent::Beat { member }),
        Frame::Ack {
            member,
            stage,
            version,
        } => Some(PlaceEvent::Ack {
            member,
            stage,
            version,
        }),
        Frame::Leave { member } => Some(PlaceEvent::Leave { member }),
        _ => None,
    }
}

// Whether a refusal says that the node has lost its disk.
fn loses_disk(refusal: &Refusal) -> bool
    ensures { result ≡ loses_disk refusal.now }
{
    matches!(refusal, Refusal::DiskFault | Refusal::Reopen)
}

/// The frames of a placement: Register, Beat, Ack and Leave are events, and each reply to one is a frame. `DiskFault` and
/// `Reopen` break a session off.
pub struct PlacementFrames;

impl<D: Disk> AnswersFrames<Gate<PlacementNode<D>>> for PlacementFrames {
    ghost use Rattle.placement_sessions.specs.Placements.{node_event, node_answer, node_breaks};

    ghost event_of = { node_event };

    ghost answer_of = { node_answer };

    ghost breaks_off = { node_breaks };

    fn event(frame: Frame, now: u64) -> Option<NodeEvent> {
        match place_event(frame) {
            Some(event) => Some(NodeEvent { event, now }),
            None => None,
        }
    }

    fn answer(reply: NodeReply) -> Frame {
        match reply {
            NodeReply::Message { frame } => frame,
            NodeReply::Seen { rooms: _ } => unreachable!(),
            NodeReply::Ticked { dropped: _ } => unreachable!(),
        }
    }

    fn breaks(reply: &NodeReply) -> bool {
        match reply {
            NodeReply::Message {
                frame: Frame::Refused { refusal },
            } => loses_disk(refusal),
            _ => false,
        }
    }
}

/// Answers the frames of a connection until it ends: each is one step of the node at the gate, at a moment of the clock,
/// and its reply is written before the next frame is taken. The frames before a fault are answered.
pub fn placement_session<R: Wait, D: Disk, C: Conn, K: Clock>(
    rt: &R,
    alloc: Global,
    gate: &Gate<PlacementNode<D>>,
    seat: Seat<PlacementNode<D>>,
    conn: &mut C,
    clock: &mut K,
) -> (Seat<PlacementNode<D>>, SessionEnd)
    requires { IsSeatOf NodeAllows gate.now seat }
    ensures seat { IsSeatOf NodeAllows gate.now result.0 }
    ensures session { IsSession StepsMade steps_seen node_event node_answer node_breaks seat result.0 (K.shown clock.old) (K.shown clock.new) (C.read_traffic conn.old) (C.read_traffic conn.new) result.1 }
    ensures cause { SessionCause (C.read_faults conn.old) (C.read_faults conn.new) result.1 }
{
    frame_session::<R, Gate<PlacementNode<D>>, PlacementFrames, C, K>(
        rt, alloc, gate, seat, conn, clock,
    )
}
