// Calls of one actor, each from its own thread, whose turns follow each other.
ghost use Rattle.step_gate.specs.Gates.{IsSeatOf};
ghost use Rattle.part_model.specs.Machine.{PartAllows};
ghost use Rattle.part_model.specs.Rooms.{IsInRange};

use crate::parts::open_part;
use actor_names::read_key;
use part_core::{Part, PartReply};
use part_model::PartEvent;
use std::alloc::Global;
use std::sync::Wait;
use std::sync::atomic::{AtomicU64, Ordering};
use std::thread;
use std::thread::Threads;
use std::time::{Clock, Duration};
use step_gate::{Gate, Seat};

/// Polls until the call no longer waits.
fn wait_for_turn<R: Wait>(
    rt: &R,
    gate: &Gate<Part>,
    seat: Seat<Part>,
    call: u64,
) -> (Seat<Part>, Option<PartReply>)
    requires { IsSeatOf PartAllows gate.now seat }
    ensures { IsSeatOf PartAllows gate.now result.0 }
{
    let (seat, reply) = gate.wait_until(
        rt,
        seat,
        move || -> PartEvent
            ensures { IsInRange result }
        { PartEvent::Poll { call } },
        |reply: &PartReply| !matches!(reply, PartReply::Waits { .. }),
    );
    (seat, reply.ok())
}

/// Asks for a turn, waits until it begins, and ends it after `time`. Returns whether the call had its turn.
pub fn take_turn<R: Wait + Clock>(
    rt: &R,
    alloc: Global,
    gate: &Gate<Part>,
    seat: Seat<Part>,
    time: Duration,
) -> bool
    requires { IsSeatOf PartAllows gate.now seat }
{
    let Ok(key) = read_key(alloc, b"counter/7") else {
        return false;
    };
    let ask = PartEvent::Ask {
        key,
        chain: None,
        now: 20,
    };
    let (seat, first) = gate.call(rt, seat, ask);
    let (seat, begun) = match first {
        Ok(PartReply::Waits { call, .. }) => wait_for_turn(rt, gate, seat, call),
        Ok(reply) => (seat, Some(reply)),
        Err(_) => (seat, None),
    };
    let Some(PartReply::Begun { call, .. }) = begun else {
        return false;
    };
    thread::sleep(rt, time);
    let (_seat, ended) = gate.call(rt, seat, PartEvent::End { call, now: 30 });
    matches!(ended, Ok(PartReply::Ended { .. }))
}

/// Starts a thread for each call, and waits for them.
fn take_turns_in<R: Threads + Wait + Clock + Sync>(
    rt: &R,
    alloc: Global,
    gate: &Gate<Part>,
    seat: Seat<Part>,
    calls: u32,
    time: Duration,
    turns: &AtomicU64,
)
    requires { IsSeatOf PartAllows gate.now seat }
{
    thread::scope(
        thread::scope_env(),
        rt,
        |scope|
            requires { IsSeatOf PartAllows gate.now seat }
        {
            let mut seat = seat;
            for _ in 0..calls {
                let own = gate.split_in(&mut seat);
                let _ = scope.spawn(
                    move ||
                        requires { IsSeatOf PartAllows gate.now own }
                    {
                        if take_turn(rt, alloc, gate, own, time) {
                            turns.fetch_add(1, Ordering::SeqCst);
                        }
                    },
                );
            }
        },
    )
}

/// Returns how many of the calls had their turn; `None` if memory runs out.
pub fn take_turns<R: Threads + Wait + Clock + Sync>(
    rt: &R,
    alloc: Global,
    calls: u32,
    time: Duration,
) -> Option<u64> {
    let (gate, seat) = Gate::new(alloc, open_part(alloc)?).ok()?;
    let turns = AtomicU64::new(0);
    take_turns_in(rt, alloc, &gate, seat, calls, time, &turns);
    Some(turns.load(Ordering::SeqCst))
}
