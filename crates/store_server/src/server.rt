// The server.
ghost use Rattle.std.specs.Prelude.{◌≡◌, ◌<◌, ◌≤◌, ◌+◌, List, IfOk, IsSome};
ghost use Rattle.server_ports.specs.declared.accept.ServerEnd.TheVariants.{PortFault, Served};
ghost use Rattle.group_gate.specs.declared.view.GroupEntry.{GroupEntry};
ghost use Rattle.group_gate.specs.Gates.{IsSeatOf};
ghost use Rattle.group_gate.specs.History.{HistoryLeadsTo};
ghost use Rattle.fence_rows.specs.declared.event.FencedEvent.{FencedEvent};
ghost use Rattle.fence_rows.specs.declared.event.FencedOutcome.{FencedOutcome};
ghost use Rattle.fence_rows.specs.Together.{AllowsAll};

use crate::compacting::USUAL_LEAST;
use crate::crossing::fenced_crosses;
use crate::pass::Pass;
use crate::service::{StoreService, do_duty};
use crate::session::serve_one;
use actor_names::{Address, OutOfMemory};
use actor_ports::{Clock, Conn, Dial, Listen};
use disk_model::Disk;
use event_log::{EventLog, Notice};
use fence_rows::Fenced;
use group_gate::GroupGate;
use server_ports::{Duty, Ending, ServerEnd, serve_port};
use std::alloc::Global;
use std::sync::Wait;
use std::thread::Threads;

// The most places of the gate.
const MOST_PLACES: u64 = 8_192;

/// How a server ended, with its store.
#[derive(Drop)]
pub struct StoreServed<D: Disk> {
    pub store: Fenced<D>,
    pub end: ServerEnd,
}

// How many places the gate has: one for each connection that is served at once, and one for the compactions.
fn places_for(at_once: u64) -> usize
    ensures most { result ≤ 8192 }
    ensures each { at_once < 8192 → result ≡ at_once + 1 }
{
    (at_once.min(MOST_PLACES - 1) + 1) as usize
}

// Serves the store behind this gate.
fn serve_at<
    R: Threads + Wait + Sync,
    D: Disk + Drop + Send,
    C: Conn,
    L: Listen<Link = C>,
    K: Clock,
    N: Dial,
>(
    rt: &R,
    alloc: Global,
    gate: &GroupGate<Fenced<D>>,
    pass: Pass<D, K, N>,
    port: L,
    at: Address,
    most: Option<u64>,
    at_once: u64,
    log: &EventLog,
) -> (L, ServerEnd)
    requires { IsSeatOf AllowsAll gate.now pass.seat }
    ensures never_falls { L.listen_faults port ≤ L.listen_faults result.0 }
    ensures cause { result.1 ≡ PortFault → L.listen_faults port < L.listen_faults result.0 }
    ensures limit { result.1 ≡ Served → IsSome most }
{
    fenced_crosses::<D>();
    log.say(Notice::Listening { at });
    let service = StoreService {
        alloc,
        gate,
        ending: Ending::new(at, None),
        at_once,
        log,
    };
    let shared = &service;
    let serve = |pass: Pass<D, K, N>, conn: C|
        requires { IsSeatOf AllowsAll shared.now.gate.now pass.seat }
    { serve_one(rt, shared, pass, conn) };
    let duty = |duty: Duty, pass: Pass<D, K, N>| -> Pass<D, K, N>
        requires { IsSeatOf AllowsAll shared.now.gate.now pass.seat }
        ensures { IsSeatOf AllowsAll shared.entry.now.gate.now result.seat }
    { do_duty(rt, shared, duty, pass) };
    serve_port(rt, shared, &serve, &duty, pass, port, most)
}

/// Serves the store at a port until `most` connections were served (without a limit if it is `None`), the store has lost
/// its disk, or the port fails. Each connection has a thread of its own; at most `at_once` are served at once, and the
/// commands that they have sent when a step begins share it; those beyond 8,191 are closed without an answer. Every 1,000
/// milliseconds the store is compacted if its file has 67,108,864 bytes, or twice what the last compaction left where that
/// is more; the log says so. If memory runs out before the first connection, the store is dropped.
pub fn serve_store<
    R: Threads + Wait + Sync,
    D: Disk + Drop + Send,
    C: Conn,
    L: Listen<Link = C>,
    K: Clock,
    N: Dial,
>(
    rt: &R,
    alloc: Global,
    store: Fenced<D>,
    port: L,
    clock: K,
    net: N,
    at: Address,
    most: Option<u64>,
    at_once: u64,
    log: &EventLog,
) -> (L, Result<StoreServed<D>, OutOfMemory>)
    ensures never_falls { L.listen_faults port ≤ L.listen_faults result.0 }
    ensures cause { IfOk result.1 (λ s. s.end ≡ PortFault → L.listen_faults port < L.listen_faults result.0) }
    ensures limit { IfOk result.1 (λ s. s.end ≡ Served → IsSome most) }
    ensures history { IfOk result.1 (λ s. (h : List (GroupEntry FencedEvent FencedOutcome)) × HistoryLeadsTo AllowsAll store h s.store) }
{
    let (gate, seat) = match GroupGate::new(alloc, store, places_for(at_once)) {
        Ok(made) => made,
        Err(error) => return (port, Err(error)),
    };
    let mut seat = seat;
    let own = gate.split_in(&mut seat);
    let pass = Pass {
        seat: own,
        clock,
        net,
        least: USUAL_LEAST,
    };
    let (port, end) = serve_at(rt, alloc, &gate, pass, port, at, most, at_once, log);
    log.say_stop(Notice::Ended);
    let store = gate.close(rt, seat);
    (port, Ok(StoreServed { store, end }))
}
