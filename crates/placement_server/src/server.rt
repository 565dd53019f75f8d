// The server.
ghost use Rattle.std.specs.Prelude.{◌≡◌, ◌<◌, ◌≤◌, ◌⊎◌, List, IfOk, IsSome};
ghost use Rattle.server_ports.specs.declared.accept.ServerEnd.TheVariants.{PortFault, Served};
ghost use Rattle.step_gate.specs.declared.view.HistoryEntry.{HistoryEntry};
ghost use Rattle.step_gate.specs.Gates.{IsSeatOf};
ghost use Rattle.step_gate.specs.History.{HistoryLeadsTo};
ghost use Rattle.placement_node.specs.declared.reply.NodeEvent.{NodeEvent};
ghost use Rattle.placement_node.specs.declared.reply.NodeReply.{NodeReply};
ghost use Rattle.placement_node.specs.Node.{NodeAllows};

use crate::pass::Pass;
use crate::service::{PlacementService, do_duty};
use crate::session::{serve_one, serve_state};
use crate::sight::Sight;
use actor_names::{Address, OutOfMemory};
use actor_ports::{Clock, Conn, Dial, Listen};
use disk_model::Disk;
use event_log::{EventLog, Notice};
use placement_node::PlacementNode;
use server_ports::{Duty, Ending, ServerEnd, serve_port, serve_ports};
use std::alloc::Global;
use std::sync::Wait;
use std::thread::Threads;
use step_gate::Gate;

/// How a server ended, with its node.
#[derive(Drop)]
pub struct PlacementServed<D: Disk> {
    pub node: PlacementNode<D>,
    pub end: ServerEnd,
}

// Serves the placement behind this gate.
fn serve_at<
    R: Threads + Wait + Sync,
    D: Disk + Drop + Send,
    C: Conn,
    L: Listen<Link = C>,
    K: Clock,
    N: Dial,
>(
    rt: &R,
    alloc: Global,
    gate: &Gate<PlacementNode<D>>,
    pass: Pass<D, K, N>,
    port: L,
    at: Address,
    most: Option<u64>,
    at_once: u64,
    log: &EventLog,
) -> (L, ServerEnd)
    requires { IsSeatOf NodeAllows gate.now pass.seat }
    ensures never_falls { L.listen_faults port ≤ L.listen_faults result.0 }
    ensures cause { result.1 ≡ PortFault → L.listen_faults port < L.listen_faults result.0 }
    ensures limit { result.1 ≡ Served → IsSome most }
{
    log.say(Notice::Listening { at });
    let service = PlacementService {
        gate,
        ending: Ending::new(at, None),
        at_once,
        log,
    };
    let shared = &service;
    let serve = |pass: Pass<D, K, N>, conn: C|
        requires { IsSeatOf NodeAllows shared.now.gate.now pass.seat }
    { serve_one(rt, alloc, shared, pass, conn) };
    let duty = |duty: Duty, pass: Pass<D, K, N>| -> Pass<D, K, N>
        requires { IsSeatOf NodeAllows shared.now.gate.now pass.seat }
        ensures { IsSeatOf NodeAllows shared.entry.now.gate.now result.seat }
    { do_duty(rt, shared, duty, pass) };
    serve_port(rt, shared, &serve, &duty, pass, port, most)
}

// Serves the placement behind this gate, and its state at a second port.
fn serve_both_at<
    R: Threads + Wait + Sync,
    D: Disk + Drop + Send,
    C: Conn,
    L: Listen<Link = C>,
    K: Clock,
    N: Dial,
>(
    rt: &R,
    alloc: Global,
    gate: &Gate<PlacementNode<D>>,
    pass: Pass<D, K, N>,
    port: L,
    at: Address,
    state: L,
    state_at: Address,
    most: Option<u64>,
    at_once: u64,
    log: &EventLog,
) -> (L, L, ServerEnd)
    requires { IsSeatOf NodeAllows gate.now pass.seat }
    ensures never_falls { L.listen_faults port ≤ L.listen_faults result.0 }
    ensures state_never_falls { L.listen_faults state ≤ L.listen_faults result.1 }
    ensures limit { result.2 ≡ Served → IsSome most }
    ensures cause { result.2 ≡ PortFault → (L.listen_faults port < L.listen_faults result.0) ⊎ (L.listen_faults state < L.listen_faults result.1) }
{
    log.say(Notice::Listening { at });
    log.say(Notice::Listening { at: state_at });
    let service = PlacementService {
        gate,
        ending: Ending::new(at, Some(state_at)),
        at_once,
        log,
    };
    let shared = &service;
    let serve = |pass: Pass<D, K, N>, conn: C|
        requires { IsSeatOf NodeAllows shared.now.gate.now pass.seat }
    { serve_one(rt, alloc, shared, pass, conn) };
    let beside = |pass: Pass<D, K, N>, conn: C|
        requires { IsSeatOf NodeAllows shared.now.gate.now pass.seat }
    { serve_state(rt, alloc, shared, pass, conn) };
    let duty = |duty: Duty, pass: Pass<D, K, N>| -> Pass<D, K, N>
        requires { IsSeatOf NodeAllows shared.now.gate.now pass.seat }
        ensures { IsSeatOf NodeAllows shared.entry.now.gate.now result.seat }
    { do_duty(rt, shared, duty, pass) };
    serve_ports(rt, shared, &serve, &beside, &duty, pass, port, state, most)
}

/// Serves the placement at a port until `most` connections were served (without a limit if it is `None`), the node has
/// lost its disk, or the port fails. Each connection has a thread of its own; at most `at_once` of a port are served at
/// once. The node is given a Tick every 1,000 milliseconds, and a Look behind it: the log says which members came and went, and
/// which rounds began and ended. If memory runs out before the first connection, the node is dropped.
pub fn serve_placement<
    R: Threads + Wait + Sync,
    D: Disk + Drop + Send,
    C: Conn,
    L: Listen<Link = C>,
    K: Clock,
    N: Dial,
>(
    rt: &R,
    alloc: Global,
    node: PlacementNode<D>,
    port: L,
    clock: K,
    net: N,
    at: Address,
    most: Option<u64>,
    at_once: u64,
    log: &EventLog,
) -> (L, Result<PlacementServed<D>, OutOfMemory>)
    ensures never_falls { L.listen_faults port ≤ L.listen_faults result.0 }
    ensures cause { IfOk result.1 (λ s. s.end ≡ PortFault → L.listen_faults port < L.listen_faults result.0) }
    ensures limit { IfOk result.1 (λ s. s.end ≡ Served → IsSome most) }
    ensures history { IfOk result.1 (λ s. (h : List (HistoryEntry NodeEvent NodeReply)) × HistoryLeadsTo NodeAllows node h s.node) }
{
    let (gate, seat) = match Gate::new(alloc, node) {
        Ok(made) => made,
        Err(error) => return (port, Err(error)),
    };
    let mut seat = seat;
    let own = gate.split_in(&mut seat);
    let pass = Pass {
        seat: own,
        clock,
        net,
        sight: Sight::none(),
    };
    let (port, end) = serve_at(rt, alloc, &gate, pass, port, at, most, at_once, log);
    log.say_stop(Notice::Ended);
    let node = gate.close(rt, seat);
    (port, Ok(PlacementServed { node, end }))
}

/// Serves the placement at a port as `serve_placement` does, and its state over HTTP at a second one, without a limit of
/// connections. The end of either port ends both. If no thread can be made for the second port, its connections get no
/// answer.
pub fn serve_placement_and_state<
    R: Threads + Wait + Sync,
    D: Disk + Drop + Send,
    C: Conn,
    L: Listen<Link = C>,
    K: Clock,
    N: Dial,
>(
    rt: &R,
    alloc: Global,
    node: PlacementNode<D>,
    port: L,
    at: Address,
    state: L,
    state_at: Address,
    clock: K,
    net: N,
    most: Option<u64>,
    at_once: u64,
    log: &EventLog,
) -> (L, L, Result<PlacementServed<D>, OutOfMemory>)
    ensures never_falls { L.listen_faults port ≤ L.listen_faults result.0 }
    ensures state_never_falls { L.listen_faults state ≤ L.listen_faults result.1 }
    ensures limit { IfOk result.2 (λ s. s.end ≡ Served → IsSome most) }
    ensures cause { IfOk result.2 (λ s. s.end ≡ PortFault → (L.listen_faults port < L.listen_faults result.0) ⊎ (L.listen_faults state < L.listen_faults result.1)) }
    ensures history { IfOk result.2 (λ s. (h : List (HistoryEntry NodeEvent NodeReply)) × HistoryLeadsTo NodeAllows node h s.node) }
{
    let (gate, seat) = match Gate::new(alloc, node) {
        Ok(made) => made,
        Err(error) => return (port, state, Err(error)),
    };
    let mut seat = seat;
    let own = gate.split_in(&mut seat);
    let pass = Pass {
        seat: own,
        clock,
        net,
        sight: Sight::none(),
    };
    let (port, state, end) = serve_both_at(
        rt, alloc, &gate, pass, port, at, state, state_at, most, at_once, log,
    );
    log.say_stop(Notice::Ended);
    let node = gate.close(rt, seat);
    (port, state, Ok(PlacementServed { node, end }))
}
