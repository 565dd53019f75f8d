// What a sidecar does by the clock.
ghost use Rattle.sidecar_server.specs.Passes.{Admits};
ghost use Rattle.sidecar_server.specs.Works.{LeavesTables};

use crate::beats::tell_watch;
use crate::pass::Pass;
use crate::service::SidecarService;
use crate::telling::{tell_reminders, tell_timers};
use crate::watch::WatchEvent;
use actor_ports::{Clock, Dial};
use clock_turns::{closing_turn, tick_turn};
use reminder_turns::reminder_turn;
use sidecar_node::Desk;
use std::sync::Wait;

/// Looks whether the lease has ended.
pub(crate) fn look<R: Wait, A: Dial, P: Dial, N: Dial, K: Clock>(
    rt: &R,
    service: &SidecarService<'_, N, K>,
    pass: Pass<A, P, N, K>,
) -> Pass<A, P, N, K>
    requires { Admits service.now.node.now service.now.watch.now pass.seats pass.watch }
    ensures admits { Admits service.now.node.now service.now.watch.now result.seats result.watch }
    ensures leaves { LeavesTables pass.seats result.seats }
{
    let mut pass = pass;
    let now = pass.steady.now_ms();
    tell_watch(rt, service, pass, WatchEvent::Look { now })
}

/// Deactivates the actors whose time is over. How that ends doesn't matter: the next turn goes on.
pub(crate) fn close_idle<R: Wait, A: Dial, P: Dial, N: Dial, K: Clock>(
    rt: &R,
    service: &SidecarService<'_, N, K>,
    pass: Pass<A, P, N, K>,
) -> Pass<A, P, N, K>
    requires { Admits service.now.node.now service.now.watch.now pass.seats pass.watch }
    ensures admits { Admits service.now.node.now service.now.watch.now result.seats result.watch }
    ensures leaves { LeavesTables pass.seats result.seats }
{
    let mut pass = pass;
    let mut desk = Desk {
        rt,
        alloc: service.alloc,
        node: service.node,
        seats: pass.seats,
        links: pass.links,
        clock: pass.clock,
    };
    let _ = closing_turn(&mut desk);
    let Desk {
        seats,
        links,
        clock,
        ..
    } = desk;
    pass.seats = seats;
    pass.links = links;
    pass.clock = clock;
    pass
}

/// Runs the timers that are due. The log says whether the application is away.
pub(crate) fn run_timers<R: Wait, A: Dial, P: Dial, N: Dial, K: Clock>(
    rt: &R,
    service: &SidecarService<'_, N, K>,
    pass: Pass<A, P, N, K>,
) -> Pass<A, P, N, K>
    requires { Admits service.now.node.now service.now.watch.now pass.seats pass.watch }
    ensures admits { Admits service.now.node.now service.now.watch.now result.seats result.watch }
    ensures leaves { LeavesTables pass.seats result.seats }
{
    let mut pass = pass;
    let mut desk = Desk {
        rt,
        alloc: service.alloc,
        node: service.node,
        seats: pass.seats,
        links: pass.links,
        clock: pass.clock,
    };
    let end = tick_turn(&mut desk);
    let Desk {
        seats,
        links,
        clock,
        ..
    } = desk;
    pass.seats = seats;
    pass.links = links;
    pass.clock = clock;
    tell_timers(service.log, pass.links.app_at, &end);
    pass
}

/// Runs the reminders that are due. The log says whether the store or the application is away.
pub(crate) fn run_reminders<R: Wait, A: Dial, P: Dial, N: Dial, K: Clock>(
    rt: &R,
    service: &SidecarService<'_, N, K>,
    pass: Pass<A, P, N, K>,
) -> Pass<A, P, N, K>
    requires { Admits service.now.node.now service.now.watch.now pass.seats pass.watch }
    ensures admits { Admits service.now.node.now service.now.watch.now result.seats result.watch }
    ensures leaves { LeavesTables pass.seats result.seats }
{
    let mut pass = pass;
    let mut desk = Desk {
        rt,
        alloc: service.alloc,
        node: service.node,
        seats: pass.seats,
        links: pass.links,
        clock: pass.clock,
    };
    let end = reminder_turn(&mut desk);
    let Desk {
        seats,
        links,
        clock,
        ..
    } = desk;
    pass.seats = seats;
    pass.links = links;
    pass.clock = clock;
    tell_reminders(service.log, pass.links.app_at, pass.links.store_at, &end);
    pass
}
