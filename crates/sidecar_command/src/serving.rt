// A sidecar that has started: its ports, and the server.
ghost use Rattle.std.specs.Prelude.{◌≡◌, ◌<◌, ◌≤◌, ◌+◌, IfSome};
ghost use Rattle.frame_wire.specs.declared.frame.Frame.TheVariants as frames;
ghost use Rattle.frame_wire.specs.Frames.{payload};
ghost use Rattle.command_words.specs.Told.{told_sidecar};
ghost use Rattle.server_ports.specs.Hosts.{place_of};
ghost use Rattle.sidecar_node.specs.Nodes.{IsSeatsOf, IsNewNode, host_of, kinds_of};
ghost use Rattle.sidecar_command.specs.Commands.{AsksPorts, IsServed, parts_in};

use crate::callees::Callees;
use crate::ends::{SidecarEnd, ended, unbound};
use actor_ports::{Clock, Dial};
use command_words::SidecarWords;
use event_log::EventLog;
use exchanges::Links;
use server_ports::Host;
use sidecar_node::{Seats, SidecarNode};
use sidecar_server::{Placements, SidecarPlaces, serve_sidecar};
use std::alloc::Global;
use std::sync::Wait;
use std::thread::Threads;

// What the sidecar calls, by diallers of its own.
fn own_links<N: Dial, A: Dial, P: Dial>(
    words: &SidecarWords<'_>,
    net: &N,
    callees: &Callees<'_, A, P>,
) -> Option<Links<A, P, N>>
    ensures { IfSome result (λ l. (l.app_at ≡ words.now.app_at) × (l.store_at ≡ words.now.store)) }
{
    let app = callees.app.another().ok()?;
    let peers = callees.peers.another().ok()?;
    let store = net.another().ok()?;
    Some(Links::new(app, peers, store, words.app_at, words.store))
}

// Serves the sidecar at its ports, and gives both back.
fn serve_bound<
    R: Threads + Wait + Sync,
    H: Host,
    N: Dial,
    A: Dial<Link = N::Link>,
    P: Dial<Link = N::Link>,
    K: Clock,
>(
    rt: &R,
    alloc: Global,
    node: &SidecarNode,
    seats: Seats,
    callers: H::Port,
    peers: H::Port,
    words: &SidecarWords<'_>,
    host: &mut H,
    links: Links<A, P, N>,
    net: N,
    clock: K,
    steady: K,
    log: &EventLog,
) -> SidecarEnd
    requires seats { IsSeatsOf node.now seats }
    requires new { IsNewNode (host_of node.now) (kinds_of node.now) (parts_in words.now.parts) node.now seats }
    requires own { payload.Fits (frames.Register (host_of node.now)) }
    requires ports { 1 < H.ports_out host.old }
    requires places { (links.app_at ≡ words.now.app_at) × (links.store_at ≡ words.now.store) }
    ensures asks { H.asked host.new ≡ H.asked host.old }
    ensures port_cause { result ≡ SidecarEnd.PortFault → H.bind_faults host.old < H.bind_faults host.new }
    ensures ends { IsServed N.dialled N.Link.read_traffic K.shown (told_sidecar words.now) (record { host = host_of node.now; kinds = kinds_of node.now }) result }
    ensures never_falls { H.bind_faults host.old ≤ H.bind_faults host.new }
    ensures ports_back { H.ports_out host.old ≡ H.ports_out host.new + 2 }
    ensures disks { (H.disks_out host.new ≡ H.disks_out host.old) × (H.open_faults host.new ≡ H.open_faults host.old) }
{
    let places = SidecarPlaces {
        callers: words.listen,
        peers: words.peer,
        placement: Placements {
            first: words.placement,
            second: words.placement2,
        },
    };
    let (callers, peers, served) = serve_sidecar(
        rt,
        alloc,
        node,
        seats,
        callers,
        peers,
        places,
        links,
        net,
        clock,
        steady,
        words.sessions,
        words.connections,
        log,
    );
    let callers_failed = H::port_failed(&callers);
    let peers_failed = H::port_failed(&peers);
    host.done_port(callers);
    host.done_port(peers);
    match served {
        Ok(served) => ended(served, callers_failed || peers_failed),
        Err(_) => SidecarEnd::OutOfMemory,
    }
}

/// Binds the two ports and serves the sidecar there, and gives both back.
pub(crate) fn serve_started<
    R: Threads + Wait + Sync,
    H: Host,
    N: Dial,
    A: Dial<Link = N::Link>,
    P: Dial<Link = N::Link>,
    K: Clock,
>(
    rt: &R,
    alloc: Global,
    node: &SidecarNode,
    seats: Seats,
    words: &SidecarWords<'_>,
    host: &mut H,
    net: &N,
    callees: &Callees<'_, A, P>,
    clock: &K,
    steady: &K,
    log: &EventLog,
) -> SidecarEnd
    requires seats { IsSeatsOf node.now seats }
    requires new { IsNewNode (host_of node.now) (kinds_of node.now) (parts_in words.now.parts) node.now seats }
    requires own { payload.Fits (frames.Register (host_of node.now)) }
    ensures asks { AsksPorts (place_of words.now.listen) (place_of words.now.peer) (H.asked host.old) (H.asked host.new) }
    ensures port_cause { result ≡ SidecarEnd.PortFault → H.bind_faults host.old < H.bind_faults host.new }
    ensures ends { IsServed N.dialled N.Link.read_traffic K.shown (told_sidecar words.now) (record { host = host_of node.now; kinds = kinds_of node.now }) result }
    ensures never_falls { H.bind_faults host.old ≤ H.bind_faults host.new }
    ensures ports_back { H.ports_out host.new ≡ H.ports_out host.old }
    ensures disks { (H.disks_out host.new ≡ H.disks_out host.old) × (H.open_faults host.new ≡ H.open_faults host.old) }
{
    let Some(links) = own_links(words, net, callees) else {
        return SidecarEnd::OutOfMemory;
    };
    let (Ok(net), Ok(clock), Ok(steady)) = (net.another(), clock.another(), steady.another()) else {
        return SidecarEnd::OutOfMemory;
    };
    let callers = match host.bind(&words.listen) {
        Ok(port) => port,
        Err(error) => return unbound(error),
    };
    match host.bind(&words.peer) {
        Ok(peers) => serve_bound(
            rt, alloc, node, seats, callers, peers, words, host, links, net, clock, steady, log,
        ),
        Err(error) => {
            host.done_port(callers);
            unbound(error)
        }
    }
}
