// One frame of a session.
ghost use Rattle.std.specs.Prelude.{◌≡◌, ◌≤◌, Some};
ghost use Rattle.actor_ports.specs.Port.{HasCause};
ghost use Rattle.http_edge.specs.Carry.{Writes};
ghost use Rattle.frame_wire.specs.declared.frame.Frame.{Frame};
ghost use Rattle.frame_wire.specs.Frames.{payload, IsFrame, frame_bytes};
ghost use Rattle.frame_session.specs.Rounds.{IsReply};
ghost use Rattle.frame_session.specs.Turns.{Replies, Turns, TurnCause};

use crate::answers::AnswersFrames;
use crate::asked::Askable;
use actor_ports::{Clock, Conn, PortError};
use frame_wire::{Frame, write_frame};
use http_edge::send;
use std::sync::Wait;

/// What came of a frame.
#[derive(Clone, Copy, Drop)]
pub(crate) enum Turn {
    /// Its answer was written whole; `broken` says that the reply breaks the session off.
    Answered { broken: bool },
    /// Its answer wasn't written whole; `broken` says the same.
    Cut { error: PortError, broken: bool },
    /// It isn't sent to this machine.
    Foreign,
    /// The machine makes no further step.
    Spent { count: u64 },
}

// Writes the spelling of a frame. One that is too long for a frame is treated as if there were no memory for it.
fn write_answer<C: Conn>(answer: &Frame, conn: &mut C, out: &mut Vec<u8>) -> Result<(), PortError>
    requires { payload.Fits answer.now }
    ensures writes { Writes (C.read_traffic conn.old) (C.read_traffic conn.new) (frame_bytes answer.now) result }
    ensures cause { HasCause (C.read_faults conn.old) (C.read_faults conn.new) result }
{
    out.clear();
    match write_frame(answer, out) {
        Err(_) => Err(PortError::OutOfMemory),
        Ok(()) => send(conn, out.as_slice()),
    }
}

// Writes the answer of a reply, and says whether the reply breaks the session off.
fn reply_with<G: Askable, A: AnswersFrames<G>, C: Conn>(
    reply: G::Reply,
    conn: &mut C,
    out: &mut Vec<u8>,
) -> (bool, Result<(), PortError>)
    requires { IsReply G.may_reply A.event_of reply }
    ensures says { result.0 ≡ A.breaks_off reply }
    ensures replies { (f : Frame) × (A.answer_of reply ≡ Some f) × Replies (C.read_traffic conn.old) (C.read_traffic conn.new) (frame_bytes f) result.1 }
    ensures cause { HasCause (C.read_faults conn.old) (C.read_faults conn.new) result.1 }
{
    let broken = A::breaks(&reply);
    let answer = A::answer(reply);
    let written = write_answer(&answer, conn, out);
    (broken, written)
}

/// Asks a frame of the machine, at a moment of the clock, and writes the answer.
pub(crate) fn take_turn<R: Wait, G: Askable, A: AnswersFrames<G>, C: Conn, K: Clock>(
    rt: &R,
    gate: &G,
    seat: &mut G::Seat,
    frame: Frame,
    conn: &mut C,
    clock: &mut K,
    out: &mut Vec<u8>,
) -> Turn
    requires seat { G.seats gate.now seat.old }
    requires frame { IsFrame frame }
    ensures seat { G.seats gate.now seat.new }
    ensures turn { Turns G.made G.known A.event_of A.answer_of A.breaks_off frame seat.old seat.new (K.shown clock.old) (K.shown clock.new) (C.read_traffic conn.old) (C.read_traffic conn.new) result }
    ensures cause { TurnCause (C.read_faults conn.old) (C.read_faults conn.new) result }
{
    let now = clock.now_ms();
    let event = match A::event(frame, now) {
        None => return Turn::Foreign,
        Some(event) => event,
    };
    let reply = match gate.ask(rt, seat, event) {
        Err(spent) => return Turn::Spent { count: spent.count },
        Ok(reply) => reply,
    };
    let (broken, written) = reply_with::<G, A, C>(reply, conn, out);
    match written {
        Err(error) => Turn::Cut { error, broken },
        Ok(()) => Turn::Answered { broken },
    }
}
