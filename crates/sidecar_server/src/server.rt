// The server.
ghost use Rattle.std.specs.Prelude.{◌≡◌, ◌<◌, ◌≤◌, ◌⊎◌, List, IfOk, length};
ghost use Rattle.server_ports.specs.declared.accept.ServerEnd.TheVariants.{PortFault};
ghost use Rattle.frame_wire.specs.declared.frame.Frame.TheVariants as frames;
ghost use Rattle.frame_wire.specs.Frames.{payload};
ghost use Rattle.sidecar_node.specs.Turns.{Said};
ghost use Rattle.sidecar_node.specs.Nodes.{IsSeatsOf, StopsAll, host_of, part_gates};
ghost use Rattle.sidecar_server.specs.Passes.{Admits};
ghost use Rattle.step_gate.specs.Gates.{IsSeatOf, opening_of};
ghost use Rattle.sidecar_server.specs.Causes.{IsShown, IsSound};
ghost use Rattle.sidecar_server.specs.Watch.{WatchMoves};
ghost use Rattle.sidecar_server.specs.Stopped.{StopsParts};

use crate::crossing::{node_crosses, seats_cross};
use crate::duties::do_duty;
use crate::pass::Pass;
use crate::placements::Placements;
use crate::service::SidecarService;
use crate::session::serve_at;
use crate::telling::tell_listening;
use crate::watch::{Parties, StopCause, Watch};
use actor_names::{Address, OutOfMemory};
use actor_ports::{Clock, Conn, Dial, Listen};
use actors_api::Side;
use event_log::{EventLog, Notice};
use exchanges::Links;
use placement_beats::PlacementBook;
use server_ports::{Duty, Ending, ServerEnd, serve_ports};
use sidecar_node::{Seats, SidecarNode, stop_turn};
use std::alloc::Global;
use std::sync::Wait;
use std::thread::Threads;
use step_gate::{Gate, Seat};

/// Where a sidecar listens for its callers and for other sidecars, and where the placement may listen.
#[derive(Clone, Copy)]
pub struct SidecarPlaces {
    pub callers: Address,
    pub peers: Address,
    pub placement: Placements,
}

/// How a server ended, why its sidecar had to stop, if it had to, and the seats that stopped its parts at the end.
#[derive(Drop)]
pub struct SidecarServed {
    pub end: ServerEnd,
    pub stop: Option<StopCause>,
    pub seats: Seats,
}

// Serves the sidecar under this watch.
fn serve_watched<
    R: Threads + Wait + Sync,
    C: Conn,
    L: Listen<Link = C>,
    A: Dial<Link = N::Link>,
    P: Dial<Link = N::Link>,
    N: Dial,
    K: Clock,
>(
    rt: &R,
    alloc: Global,
    node: &SidecarNode,
    watch: &Gate<Watch<N, K>>,
    pass: Pass<A, P, N, K>,
    callers: L,
    peers: L,
    places: SidecarPlaces,
    most: Option<u64>,
    at_once: u64,
    log: &EventLog,
) -> (L, L, ServerEnd)
    requires { Admits node.now watch.now pass.seats pass.watch }
    ensures never_falls { L.listen_faults callers ≤ L.listen_faults result.0 }
    ensures peers_never_falls { L.listen_faults peers ≤ L.listen_faults result.1 }
    ensures cause { result.2 ≡ PortFault → (L.listen_faults callers < L.listen_faults result.0) ⊎ (L.listen_faults peers < L.listen_faults result.1) }
{
    seats_cross();
    node_crosses();
    let service = SidecarService {
        alloc,
        node,
        watch,
        placement: places.placement,
        ending: Ending::new(places.callers, Some(places.peers)),
        at_once,
        log,
    };
    let shared = &service;
    let serve = |pass: Pass<A, P, N, K>, conn: C|
        requires { Admits shared.now.node.now shared.now.watch.now pass.seats pass.watch }
    { serve_at(rt, shared, Side::Caller, pass, conn) };
    let beside = |pass: Pass<A, P, N, K>, conn: C|
        requires { Admits shared.now.node.now shared.now.watch.now pass.seats pass.watch }
    { serve_at(rt, shared, Side::Peer, pass, conn) };
    let duty = |duty: Duty, pass: Pass<A, P, N, K>| -> Pass<A, P, N, K>
        requires { Admits shared.now.node.now shared.now.watch.now pass.seats pass.watch }
        ensures { Admits shared.entry.now.node.now shared.entry.now.watch.now result.seats result.watch }
    { do_duty(rt, shared, duty, pass) };
    serve_ports(
        rt, shared, &serve, &beside, &duty, pass, callers, peers, most,
    )
}

// The gate of a watch over this node's turns with the placement at these addresses, whose lease begins at this moment.
fn new_watch<N: Dial, K: Clock>(
    alloc: Global,
    node: &SidecarNode,
    placement: Placements,
    now: u64,
) -> Result<(Gate<Watch<N, K>>, Seat<Watch<N, K>>), OutOfMemory>
    requires { IsShown K.shown now }
    ensures seat { IfOk result (λ g. IsSeatOf WatchMoves g.0 g.1) }
    ensures parties { IfOk result (λ g. (opening_of g.0).parties ≡ record { member = (host_of node.now).member; placement = placement }) }
{
    let parties = Parties {
        member: node.host().member,
        placement,
    };
    Gate::new(alloc, Watch::new(parties, now))
}

// Why the sidecar had to stop, once nobody tells its watch anything more.
fn closed_watch<R: Wait, N: Dial, K: Clock>(
    rt: &R,
    gate: Gate<Watch<N, K>>,
    seat: Seat<Watch<N, K>>,
) -> Option<StopCause>
    requires { IsSeatOf WatchMoves gate seat }
    ensures { IsSound N.dialled N.Link.read_traffic K.shown (opening_of gate).parties result }
{
    let watch = gate.close(rt, seat);
    watch.stop()
}

// Gives every part of the node its StopPart.
fn stop_all<R: Wait>(rt: &R, node: &SidecarNode, seats: Seats) -> Seats
    requires { IsSeatsOf node.now seats }
    ensures seats { IsSeatsOf node.now result }
    ensures stops { (saids : List Said) × StopsAll (length (part_gates node.now)) saids seats result }
{
    let (seats, _) = stop_turn(rt, node, seats);
    seats
}

/// Serves a sidecar at its two ports until `most` connections of callers were served (without a limit if it is `None`), the
/// sidecar has to stop, or a port fails. Each connection has a thread of its own; at most `at_once` of a port are served
/// at once. Beside them the sidecar speaks with the
/// placement and looks whether its lease has ended, every 200 milliseconds; it deactivates idle actors as often, runs the timers
/// that are due every 100 milliseconds, and the reminders every 1,000. At the end all parts are stopped, and the sidecar
/// leaves the placement. The lease counts by `steady`. The log says where it listens,
/// when the placement, the store or the application is away, and why it stops. Its host must be one that a Register frame can carry.
pub fn serve_sidecar<
    R: Threads + Wait + Sync,
    C: Conn,
    L: Listen<Link = C>,
    A: Dial<Link = N::Link>,
    P: Dial<Link = N::Link>,
    N: Dial,
    K: Clock,
>(
    rt: &R,
    alloc: Global,
    node: &SidecarNode,
    seats: Seats,
    callers: L,
    peers: L,
    places: SidecarPlaces,
    links: Links<A, P, N>,
    net: N,
    clock: K,
    steady: K,
    most: Option<u64>,
    at_once: u64,
    log: &EventLog,
) -> (L, L, Result<SidecarServed, OutOfMemory>)
    requires seats { IsSeatsOf node.now seats }
    requires host { payload.Fits (frames.Register (host_of node.now)) }
    ensures never_falls { L.listen_faults callers ≤ L.listen_faults result.0 }
    ensures peers_never_falls { L.listen_faults peers ≤ L.listen_faults result.1 }
    ensures cause { IfOk result.2 (λ s. s.end ≡ PortFault → (L.listen_faults callers < L.listen_faults result.0) ⊎ (L.listen_faults peers < L.listen_faults result.1)) }
    ensures stop { IfOk result.2 (λ s. IsSound N.dialled N.Link.read_traffic K.shown (record { member = (host_of node.now).member; placement = places.placement }) s.stop) }
    ensures stopped { IfOk result.2 (λ s. StopsParts node.now seats s.seats) }
{
    let (seats, last) = node.split(alloc, seats);
    let last = match last {
        Ok(last) => last,
        Err(error) => return (callers, peers, Err(error)),
    };
    let mut steady = steady;
    let now = steady.now_ms();
    let (gate, seat) = match new_watch::<N, K>(alloc, node, places.placement, now) {
        Ok(made) => made,
        Err(error) => return (callers, peers, Err(error)),
    };
    let mut seat = seat;
    let own = gate.split_in(&mut seat);
    let pass = Pass {
        seats,
        watch: own,
        links,
        net,
        clock,
        steady,
        book: PlacementBook {
            acked: None,
            heard: now,
        },
        link: None,
        is_second: false,
    };
    tell_listening(log, places.callers, places.peers);
    let (callers, peers, end) = serve_watched(
        rt, alloc, node, &gate, pass, callers, peers, places, most, at_once, log,
    );
    log.say_stop(Notice::Ended);
    let stop = closed_watch(rt, gate, seat);
    // No other thread is left: nothing follows these steps.
    let seats = stop_all(rt, node, last);
    (callers, peers, Ok(SidecarServed { end, stop, seats }))
}
