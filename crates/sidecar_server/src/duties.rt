// What a thread of a sidecar does beside the connections.
ghost use Rattle.sidecar_server.specs.Passes.{Admits};
ghost use Rattle.sidecar_server.specs.Works.{DoesDuty, LeavesTables};

use crate::beats::{beat, leave};
use crate::clocked::{close_idle, look, run_reminders, run_timers};
use crate::pass::Pass;
use crate::service::SidecarService;
use actor_ports::{Clock, Dial};
use server_ports::{Duty, pause_for};
use std::sync::Wait;

// The works: the turns with the placement, the watch, timers and reminders. All that follow deactivate the actors whose time
// is over: several threads, so that many actors that move, or an application that doesn't answer, hold up a space less.
const BEATS: u32 = 0;

const WATCH: u32 = 1;

const TIMERS: u32 = 2;

const REMINDERS: u32 = 3;

// How long they wait between two turns, in milliseconds.
const USUAL_PAUSE_MS: u64 = 200;

const TIMERS_PAUSE_MS: u64 = 100;

const REMINDERS_PAUSE_MS: u64 = 1_000;

// How long a work rests between two turns.
fn rest_of(duty: Duty) -> u64 {
    match duty {
        Duty::Rest(TIMERS) => TIMERS_PAUSE_MS,
        Duty::Rest(REMINDERS) => REMINDERS_PAUSE_MS,
        _ => USUAL_PAUSE_MS,
    }
}

// One turn of a work by the clock.
fn clocked_turn<R: Wait, A: Dial, P: Dial, N: Dial, K: Clock>(
    rt: &R,
    service: &SidecarService<'_, N, K>,
    work: u32,
    pass: Pass<A, P, N, K>,
) -> Pass<A, P, N, K>
    requires { Admits service.now.node.now service.now.watch.now pass.seats pass.watch }
    ensures admits { Admits service.now.node.now service.now.watch.now result.seats result.watch }
    ensures leaves { LeavesTables pass.seats result.seats }
{
    if work == WATCH {
        return look(rt, service, pass);
    }
    if work == TIMERS {
        return run_timers(rt, service, pass);
    }
    if work == REMINDERS {
        return run_reminders(rt, service, pass);
    }
    close_idle(rt, service, pass)
}

// One turn of a work.
fn turn<R: Wait, A: Dial, P: Dial, N: Dial, K: Clock>(
    rt: &R,
    service: &SidecarService<'_, N, K>,
    work: u32,
    pass: Pass<A, P, N, K>,
) -> Pass<A, P, N, K>
    requires { Admits service.now.node.now service.now.watch.now pass.seats pass.watch }
    ensures admits { Admits service.now.node.now service.now.watch.now result.seats result.watch }
    ensures does { DoesDuty N.dialled N.Link.read_traffic K.shown service.now.node.now service.now.placement pass.seats result.seats }
{
    if work == BEATS {
        return beat(rt, service, pass);
    }
    clocked_turn(rt, service, work, pass)
}

/// What a thread does beside the connections. With the last of its turns the sidecar leaves the placement.
pub(crate) fn do_duty<R: Wait, A: Dial, P: Dial, N: Dial, K: Clock>(
    rt: &R,
    service: &SidecarService<'_, N, K>,
    duty: Duty,
    pass: Pass<A, P, N, K>,
) -> Pass<A, P, N, K>
    requires { Admits service.now.node.now service.now.watch.now pass.seats pass.watch }
    ensures admits { Admits service.now.node.now service.now.watch.now result.seats result.watch }
    ensures does { DoesDuty N.dialled N.Link.read_traffic K.shown service.now.node.now service.now.placement pass.seats result.seats }
{
    match duty {
        Duty::Turn(work) => turn(rt, service, work, pass),
        Duty::Rest(_) | Duty::Pause => {
            let mut pass = pass;
            pause_for(&mut pass.clock, duty, rest_of(duty));
            pass
        }
        Duty::Finish(work) => {
            if work == BEATS {
                return leave(rt, service, pass);
            }
            pass
        }
        Duty::Wake => {
            let mut pass = pass;
            service.close(&mut pass.net);
            pass
        }
    }
}
