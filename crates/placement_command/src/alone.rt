// A placement over a disk of the host alone.
ghost use Rattle.std.specs.Prelude.{◌≡◌, ◌≢◌, ◌<◌, ◌≤◌, ◌+◌, List, Option, IsSome};
ghost use Rattle.disk_model.specs.Disk.{DiskState};
ghost use Rattle.server_ports.specs.Hosts.{Hands, place_of};
ghost use Rattle.placement_command.specs.Commands.{AsksBoth, AsksPorts};
ghost use Rattle.placement_command.specs.Runs.{EndsNode, RunsDisk, given_back};

use crate::back::{NodeBack, disk_end, give_back};
use crate::command::PlacementEnd;
use crate::ends::end_of;
use crate::serving::serve_node;
use actor_ports::{Clock, Dial};
use command_words::PlacementWords;
use event_log::EventLog;
use placement_node::{PlacementNode, node_law};
use server_ports::Host;
use std::alloc::Global;
use std::sync::Wait;
use std::thread::Threads;

// Serves the node, and gives its disk back.
fn serve_alone<R: Threads + Wait + Sync, H: Host, N: Dial, K: Clock>(
    rt: &R,
    alloc: Global,
    node: PlacementNode<H::Store>,
    words: &PlacementWords<'_>,
    host: &mut H,
    net: &N,
    clock: &K,
    log: &EventLog,
) -> PlacementEnd
    requires { 0 < H.disks_out host.old }
    ensures asks { AsksPorts (place_of words.now.server.listen) words.now.http (H.asked host.old) (H.asked host.new) }
    ensures disk_cause { result ≡ PlacementEnd.DiskFault → H.open_faults host.old < H.open_faults host.new }
    ensures port_cause { result ≡ PlacementEnd.PortFault → H.bind_faults host.old < H.bind_faults host.new }
    ensures never_fall { (H.open_faults host.old ≤ H.open_faults host.new) × (H.bind_faults host.old ≤ H.bind_faults host.new) }
    ensures ports_back { H.ports_out host.new ≡ H.ports_out host.old }
    ensures disk_back { result ≢ PlacementEnd.OutOfMemory → H.disks_out host.old ≡ H.disks_out host.new + 1 }
    ensures done { result ≡ PlacementEnd.Done → (H.open_faults host.new ≡ H.open_faults host.old) × (H.bind_faults host.new ≡ H.bind_faults host.old) × IsSome words.now.server.sessions }
    ensures bound { result ≡ PlacementEnd.Done → AsksBoth (place_of words.now.server.listen) words.now.http (H.asked host.old) (H.asked host.new) }
    ensures ran { (back : List (Option DiskState)) × Hands (H.handed host.old) (given_back back) (H.handed host.new) × EndsNode node result back }
{
    node_law();
    match serve_node(rt, alloc, node, words, host, net, clock, log) {
        Err(_) => PlacementEnd::OutOfMemory,
        Ok(left) => {
            let NodeBack { node, end } = left;
            let failed = give_back(host, node);
            disk_end(end, failed)
        }
    }
}

/// Opens the placement of a disk and serves it, and gives the disk back.
pub(crate) fn run_alone<R: Threads + Wait + Sync, H: Host, N: Dial, K: Clock>(
    rt: &R,
    alloc: Global,
    disk: H::Store,
    words: &PlacementWords<'_>,
    host: &mut H,
    net: &N,
    clock: &mut K,
    log: &EventLog,
) -> PlacementEnd
    requires { 0 < H.disks_out host.old }
    ensures asks { AsksPorts (place_of words.now.server.listen) words.now.http (H.asked host.old) (H.asked host.new) }
    ensures disk_cause { result ≡ PlacementEnd.DiskFault → H.open_faults host.old < H.open_faults host.new }
    ensures port_cause { result ≡ PlacementEnd.PortFault → H.bind_faults host.old < H.bind_faults host.new }
    ensures never_fall { (H.open_faults host.old ≤ H.open_faults host.new) × (H.bind_faults host.old ≤ H.bind_faults host.new) }
    ensures ports_back { H.ports_out host.new ≡ H.ports_out host.old }
    ensures disk_back { result ≢ PlacementEnd.OutOfMemory → H.disks_out host.old ≡ H.disks_out host.new + 1 }
    ensures done { result ≡ PlacementEnd.Done → (H.open_faults host.new ≡ H.open_faults host.old) × (H.bind_faults host.new ≡ H.bind_faults host.old) × IsSome words.now.server.sessions }
    ensures bound { result ≡ PlacementEnd.Done → AsksBoth (place_of words.now.server.listen) words.now.http (H.asked host.old) (H.asked host.new) }
    ensures ran { (back : List (Option DiskState)) × Hands (H.handed host.old) (given_back back) (H.handed host.new) × RunsDisk words.now.server.is_new (K.shown clock.new) (H.Store.told disk) result back }
{
    node_law();
    match PlacementNode::open(alloc, disk, words.server.is_new, clock.now_ms()) {
        Ok(node) => serve_alone(rt, alloc, node, words, host, net, clock, log),
        Err((error, disk)) => {
            host.done_disk(disk);
            end_of(error)
        }
    }
}
