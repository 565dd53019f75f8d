// An open placement: its ports, and the server.
ghost use Rattle.std.specs.Prelude.{◌≡◌, ◌<◌, ◌≤◌, ◌+◌, IfOk, IsSome};
ghost use Rattle.server_ports.specs.Hosts.{place_of};
ghost use Rattle.step_gate.specs.History.{HistoryLeadsTo};
ghost use Rattle.placement_node.specs.Histories.{NodeHistory};
ghost use Rattle.placement_node.specs.Node.{NodeAllows};
ghost use Rattle.placement_command.specs.Commands.{AsksBoth, AsksPorts};
ghost use Rattle.placement_command.specs.Runs.{IsPortsEnd};

use crate::back::{NodeBack, ports_end, unbound};
use crate::command::PlacementEnd;
use actor_names::{Address, OutOfMemory};
use actor_ports::{Clock, Dial};
use command_words::{PlacementWords, ServerWords};
use disk_model::Disk;
use event_log::EventLog;
use placement_node::PlacementNode;
use placement_server::{PlacementServed, serve_placement, serve_placement_and_state};
use server_ports::Host;
use std::alloc::Global;
use std::sync::Wait;
use std::thread::Threads;

// Serves the node at one port, and gives the port back.
fn serve_frames<R: Threads + Wait + Sync, D: Disk + Drop + Send, H: Host, N: Dial, K: Clock>(
    rt: &R,
    alloc: Global,
    node: PlacementNode<D>,
    port: H::Port,
    words: &ServerWords<'_>,
    host: &mut H,
    net: N,
    clock: K,
    log: &EventLog,
) -> Result<NodeBack<D>, OutOfMemory>
    requires port { 0 < H.ports_out host.old }
    requires sound { H.Port.listen_faults port ≡ 0 }
    ensures asks { H.asked host.new ≡ H.asked host.old }
    ensures disks { (H.disks_out host.new ≡ H.disks_out host.old) × (H.open_faults host.new ≡ H.open_faults host.old) × (H.handed host.new ≡ H.handed host.old) }
    ensures port_cause { IfOk result (λ b. b.end ≡ PlacementEnd.PortFault → H.bind_faults host.old < H.bind_faults host.new) }
    ensures never_falls { H.bind_faults host.old ≤ H.bind_faults host.new }
    ensures port_back { H.ports_out host.old ≡ H.ports_out host.new + 1 }
    ensures done { IfOk result (λ b. b.end ≡ PlacementEnd.Done → (H.bind_faults host.new ≡ H.bind_faults host.old) × IsSome words.now.sessions) }
    ensures ends { IfOk result (λ b. IsPortsEnd b.end) }
    ensures history { IfOk result (λ b. (h : NodeHistory) × HistoryLeadsTo NodeAllows node h b.node) }
{
    let (port, served) = serve_placement(
        rt,
        alloc,
        node,
        port,
        clock,
        net,
        words.listen,
        words.sessions,
        words.connections,
        log,
    );
    let port_failed = H::port_failed(&port);
    host.done_port(port);
    match served {
        Err(error) => Err(error),
        Ok(served) => {
            let PlacementServed { node, end } = served;
            Ok(NodeBack {
                node,
                end: ports_end(end, port_failed),
            })
        }
    }
}

// Serves the node at one port and its state at another, and gives back both ports.
fn serve_both<R: Threads + Wait + Sync, D: Disk + Drop + Send, H: Host, N: Dial, K: Clock>(
    rt: &R,
    alloc: Global,
    node: PlacementNode<D>,
    port: H::Port,
    state: H::Port,
    state_at: Address,
    words: &ServerWords<'_>,
    host: &mut H,
    net: N,
    clock: K,
    log: &EventLog,
) -> Result<NodeBack<D>, OutOfMemory>
    requires ports { 1 < H.ports_out host.old }
    requires sound { H.Port.listen_faults port ≡ 0 }
    requires state_sound { H.Port.listen_faults state ≡ 0 }
    ensures asks { H.asked host.new ≡ H.asked host.old }
    ensures disks { (H.disks_out host.new ≡ H.disks_out host.old) × (H.open_faults host.new ≡ H.open_faults host.old) × (H.handed host.new ≡ H.handed host.old) }
    ensures port_cause { IfOk result (λ b. b.end ≡ PlacementEnd.PortFault → H.bind_faults host.old < H.bind_faults host.new) }
    ensures never_falls { H.bind_faults host.old ≤ H.bind_faults host.new }
    ensures ports_back { H.ports_out host.old ≡ H.ports_out host.new + 2 }
    ensures done { IfOk result (λ b. b.end ≡ PlacementEnd.Done → (H.bind_faults host.new ≡ H.bind_faults host.old) × IsSome words.now.sessions) }
    ensures ends { IfOk result (λ b. IsPortsEnd b.end) }
    ensures history { IfOk result (λ b. (h : NodeHistory) × HistoryLeadsTo NodeAllows node h b.node) }
{
    let (port, state, served) = serve_placement_and_state(
        rt,
        alloc,
        node,
        port,
        words.listen,
        state,
        state_at,
        clock,
        net,
        words.sessions,
        words.connections,
        log,
    );
    let port_failed = H::port_failed(&port);
    let state_failed = H::port_failed(&state);
    host.done_port(port);
    host.done_port(state);
    match served {
        Err(error) => Err(error),
        Ok(served) => {
            let PlacementServed { node, end } = served;
            Ok(NodeBack {
                node,
                end: ports_end(end, port_failed || state_failed),
            })
        }
    }
}

/// Binds the ports and serves the node there, gives back the ports, and hands back the node; if there is no memory to serve
/// it, the node is lost with its disk.
pub(crate) fn serve_node<
    R: Threads + Wait + Sync,
    D: Disk + Drop + Send,
    H: Host,
    N: Dial,
    K: Clock,
>(
    rt: &R,
    alloc: Global,
    node: PlacementNode<D>,
    words: &PlacementWords<'_>,
    host: &mut H,
    net: &N,
    clock: &K,
    log: &EventLog,
) -> Result<NodeBack<D>, OutOfMemory>
    ensures asks { AsksPorts (place_of words.now.server.listen) words.now.http (H.asked host.old) (H.asked host.new) }
    ensures disks { (H.disks_out host.new ≡ H.disks_out host.old) × (H.open_faults host.new ≡ H.open_faults host.old) × (H.handed host.new ≡ H.handed host.old) }
    ensures port_cause { IfOk result (λ b. b.end ≡ PlacementEnd.PortFault → H.bind_faults host.old < H.bind_faults host.new) }
    ensures never_falls { H.bind_faults host.old ≤ H.bind_faults host.new }
    ensures ports_back { H.ports_out host.new ≡ H.ports_out host.old }
    ensures done { IfOk result (λ b. b.end ≡ PlacementEnd.Done → (H.bind_faults host.new ≡ H.bind_faults host.old) × IsSome words.now.server.sessions) }
    ensures bound { IfOk result (λ b. b.end ≡ PlacementEnd.Done → AsksBoth (place_of words.now.server.listen) words.now.http (H.asked host.old) (H.asked host.new)) }
    ensures ends { IfOk result (λ b. IsPortsEnd b.end) }
    ensures history { IfOk result (λ b. (h : NodeHistory) × HistoryLeadsTo NodeAllows node h b.node) }
{
    let (Ok(net), Ok(clock)) = (net.another(), clock.another()) else {
        return Ok(NodeBack {
            node,
            end: PlacementEnd::OutOfMemory,
        });
    };
    let port = match host.bind(&words.server.listen) {
        Ok(port) => port,
        Err(error) => {
            return Ok(NodeBack {
                node,
                end: unbound(error),
            });
        }
    };
    let Some(state_at) = words.http else {
        return serve_frames(rt, alloc, node, port, &words.server, host, net, clock, log);
    };
    match host.bind(&state_at) {
        Ok(state) => serve_both(
            rt,
            alloc,
            node,
            port,
            state,
            state_at,
            &words.server,
            host,
            net,
            clock,
            log,
        ),
        Err(error) => {
            host.done_port(port);
            Ok(NodeBack {
                node,
                end: unbound(error),
            })
        }
    }
}
