// The store with its fence, asked by frames.
ghost use Rattle.std.specs.Prelude.{◌≡◌, ◌<◌, Option, IfSome};
ghost use Rattle.frame_wire.specs.Frames.{IsFrame};
ghost use Rattle.frame_wire.specs.Store.{AnswerFits};
ghost use Rattle.frame_session.specs.AtGroupGate.{SitsThere, GroupMade, group_steps_seen};
ghost use Rattle.frame_session.specs.Sessions.{IsSession, SessionCause};
ghost use Rattle.fence_rows.specs.Events.{Takes};
ghost use Rattle.fence_rows.specs.Together.{AllowsAll};
ghost use Rattle.fence_rows.specs.Fences.{FencedAnswerFits};
ghost use Rattle.store_server.specs.Commands.{store_event, fenced_answer, store_answer, answer_breaks, loses_disk, store_breaks};

use actor_ports::{Clock, Conn, SessionEnd};
use disk_model::Disk;
use fence_rows::{Fenced, FencedAnswer, FencedCommand, FencedEvent, FencedOutcome};
use frame_session::{AnswersFrames, PlacedSeat, frame_session};
use frame_wire::{Frame, StoreAnswer, StoreCommand, StoreRefusal};
use group_gate::GroupGate;
use std::alloc::Global;
use std::sync::Wait;

// What a frame asks of the store; `None` if such a frame isn't sent to it.
fn store_event(frame: Frame, now: u64) -> Option<FencedEvent>
    requires sent { IsFrame frame }
    requires early { now < 253370764800000 }
    ensures event { result ≡ store_event frame now }
    ensures takes { IfSome result Takes }
{
    match frame {
        Frame::Command { command } => Some(FencedEvent::Command {
            command: FencedCommand::Plain { command },
            now,
        }),
        Frame::FencedTx {
            epoch,
            stamp,
            actor,
            ops,
        } => Some(FencedEvent::Command {
            command: FencedCommand::Tx {
                epoch,
                command: StoreCommand::Tx { stamp, actor, ops },
            },
            now,
        }),
        _ => None,
    }
}

// A refusal, as an answer of the store.
fn refused(refusal: StoreRefusal) -> StoreAnswer
    ensures { result ≡ StoreAnswer.Refused refusal }
{
    StoreAnswer::Refused { refusal }
}

// What a frame says of an answer.
fn fenced_answer(answer: FencedAnswer) -> StoreAnswer
    requires { FencedAnswerFits answer }
    ensures is { result ≡ fenced_answer answer }
    ensures fits { AnswerFits result }
{
    match answer {
        FencedAnswer::Answer { answer } => answer,
        FencedAnswer::StaleEpoch { seen } => refused(StoreRefusal::StaleEpoch { seen }),
        FencedAnswer::ReservedKey { op } => refused(StoreRefusal::ReservedKey { op: op as u64 }),
        FencedAnswer::Unfenced => refused(StoreRefusal::Unfenced),
    }
}

// Whether a refusal says that the store has lost its disk.
fn loses_disk(refusal: &StoreRefusal) -> bool
    ensures { result ≡ loses_disk refusal.now }
{
    matches!(refusal, StoreRefusal::DiskFault | StoreRefusal::Reopen)
}

// Whether an answer says so.
fn answer_breaks(answer: &FencedAnswer) -> bool
    ensures { result ≡ answer_breaks answer.now }
{
    match answer {
        FencedAnswer::Answer {
            answer: StoreAnswer::Refused { refusal },
        } => loses_disk(refusal),
        _ => false,
    }
}

/// The frames of a store: each command is an event, with an epoch or without one, and each answer a frame. `DiskFault` and
/// `Reopen` break a session off.
pub struct StoreFrames;

impl<D: Disk> AnswersFrames<GroupGate<Fenced<D>>> for StoreFrames {
    ghost use Rattle.store_server.specs.Commands.{store_event, store_answer, store_breaks};

    ghost event_of = { store_event };

    ghost answer_of = { store_answer };

    ghost breaks_off = { store_breaks };

    fn event(frame: Frame, now: u64) -> Option<FencedEvent> {
        store_event(frame, now)
    }

    fn answer(reply: FencedOutcome) -> Frame {
        match reply {
            FencedOutcome::Answer { answer } => Frame::Answer {
                answer: fenced_answer(answer),
            },
            FencedOutcome::CompactIs { end: _ } => unreachable!(),
        }
    }

    fn breaks(reply: &FencedOutcome) -> bool {
        match reply {
            FencedOutcome::Answer { answer } => answer_breaks(answer),
            FencedOutcome::CompactIs { end: _ } => false,
        }
    }
}

/// Answers the commands of a connection until it ends: each is asked of the fenced store once, at the seat's place, at a
/// moment of the clock, and shares a step with what others ask then; its answer is written before the next frame is
/// taken. The frames before a fault are answered.
pub fn store_session<R: Wait, D: Disk, C: Conn, K: Clock>(
    rt: &R,
    alloc: Global,
    gate: &GroupGate<Fenced<D>>,
    seat: PlacedSeat<Fenced<D>>,
    conn: &mut C,
    clock: &mut K,
) -> (PlacedSeat<Fenced<D>>, SessionEnd)
    requires { SitsThere AllowsAll gate.now seat }
    ensures seat { SitsThere AllowsAll gate.now result.0 }
    ensures session { IsSession GroupMade group_steps_seen store_event store_answer store_breaks seat result.0 (K.shown clock.old) (K.shown clock.new) (C.read_traffic conn.old) (C.read_traffic conn.new) result.1 }
    ensures cause { SessionCause (C.read_faults conn.old) (C.read_faults conn.new) result.1 }
{
    frame_session::<R, GroupGate<Fenced<D>>, StoreFrames, C, K>(rt, alloc, gate, seat, conn, clock)
}
