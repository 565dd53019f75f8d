// An open store: its port, and the server.
ghost use Rattle.std.specs.Prelude.{◌≡◌, ◌≢◌, ◌<◌, ◌≤◌, ◌+◌, false, List, Option, IsSome, IsTrue};
ghost use Rattle.disk_model.specs.Disk.{DiskState};
ghost use Rattle.server_ports.specs.declared.accept.ServerEnd.TheVariants.{Served};
ghost use Rattle.server_ports.specs.Hosts.{Hands, place_of};
ghost use Rattle.store_core.specs.Runs.{Stands};
ghost use Rattle.store_command.specs.Commands.{AsksAt, AsksPort};
ghost use Rattle.store_command.specs.Runs.{EndsStore, IsServedEnd, given_back, sides_told};

use crate::back::give_back;
use crate::command::StoreEnd;
use actor_ports::{Clock, Dial, PortError};
use command_words::ServerWords;
use event_log::EventLog;
use fence_rows::{Fenced, group_law};
use server_ports::{Host, ServerEnd};
use std::alloc::Global;
use std::sync::Wait;
use std::thread::Threads;
use store_server::{StoreServed, serve_store};

// How the command ends if the port isn't bound.
fn unbound(error: PortError) -> StoreEnd
    ensures port { result ≡ StoreEnd.PortFault → error ≡ PortError.Failed }
    ensures others { (result ≢ StoreEnd.Done) × (result ≢ StoreEnd.DiskFault) }
    ensures opened { IsServedEnd result }
{
    match error {
        PortError::Failed => StoreEnd::PortFault,
        PortError::OutOfMemory => StoreEnd::OutOfMemory,
    }
}

// How the command ends once its server has ended; the disks are given back. A server that is over has lost its disk.
fn ended<H: Host>(host: &mut H, served: StoreServed<H::Store>, port_failed: bool) -> StoreEnd
    requires { 1 < H.disks_out host.old }
    ensures disk_cause { result ≡ StoreEnd.DiskFault → H.open_faults host.old < H.open_faults host.new }
    ensures port_cause { result ≡ StoreEnd.PortFault → IsTrue port_failed }
    ensures never_falls { H.open_faults host.old ≤ H.open_faults host.new }
    ensures disks_back { H.disks_out host.old ≡ H.disks_out host.new + 2 }
    ensures ports { (H.ports_out host.new ≡ H.ports_out host.old) × (H.bind_faults host.new ≡ H.bind_faults host.old) }
    ensures asks { H.asked host.new ≡ H.asked host.old }
    ensures done { result ≡ StoreEnd.Done → (H.open_faults host.new ≡ H.open_faults host.old) × (port_failed ≡ false) × (served.end ≡ Served) }
    ensures opened { IsServedEnd result }
    ensures hands { Hands (H.handed host.old) (given_back (sides_told served.store.journal)) (H.handed host.new) }
{
    let StoreServed { store, end } = served;
    if give_back(host, store) {
        return StoreEnd::DiskFault;
    }
    if port_failed {
        return StoreEnd::PortFault;
    }
    match end {
        ServerEnd::Served => StoreEnd::Done,
        _ => StoreEnd::OutOfMemory,
    }
}

// Serves the store at its port, and gives back the port and both disks.
fn serve_bound<R: Threads + Wait + Sync, H: Host, N: Dial, K: Clock>(
    rt: &R,
    alloc: Global,
    store: Fenced<H::Store>,
    port: H::Port,
    words: &ServerWords<'_>,
    host: &mut H,
    net: &N,
    clock: &K,
    log: &EventLog,
) -> StoreEnd
    requires disks { 1 < H.disks_out host.old }
    requires port { 0 < H.ports_out host.old }
    requires sound { H.Port.listen_faults port ≡ 0 }
    requires stands { Stands store.contents store }
    ensures asks { H.asked host.new ≡ H.asked host.old }
    ensures disk_cause { result ≡ StoreEnd.DiskFault → H.open_faults host.old < H.open_faults host.new }
    ensures port_cause { result ≡ StoreEnd.PortFault → H.bind_faults host.old < H.bind_faults host.new }
    ensures never_fall { (H.open_faults host.old ≤ H.open_faults host.new) × (H.bind_faults host.old ≤ H.bind_faults host.new) }
    ensures port_back { H.ports_out host.old ≡ H.ports_out host.new + 1 }
    ensures disks_back { result ≢ StoreEnd.OutOfMemory → H.disks_out host.old ≡ H.disks_out host.new + 2 }
    ensures done { result ≡ StoreEnd.Done → (H.open_faults host.new ≡ H.open_faults host.old) × (H.bind_faults host.new ≡ H.bind_faults host.old) × IsSome words.now.sessions }
    ensures ran { (back : List (Option DiskState)) × Hands (H.handed host.old) (given_back back) (H.handed host.new) × EndsStore store result back }
{
    group_law();
    let (Ok(net), Ok(clock)) = (net.another(), clock.another()) else {
        host.done_port(port);
        give_back(host, store);
        return StoreEnd::OutOfMemory;
    };
    let (port, served) = serve_store(
        rt,
        alloc,
        store,
        port,
        clock,
        net,
        words.listen,
        words.sessions,
        words.connections,
        log,
    );
    let port_failed = H::port_failed(&port);
    host.done_port(port);
    match served {
        Err(_) => StoreEnd::OutOfMemory,
        Ok(served) => ended(host, served, port_failed),
    }
}

/// Binds the port and serves the store there, and gives back the port and both disks.
pub(crate) fn serve_opened<R: Threads + Wait + Sync, H: Host, N: Dial, K: Clock>(
    rt: &R,
    alloc: Global,
    store: Fenced<H::Store>,
    words: &ServerWords<'_>,
    host: &mut H,
    net: &N,
    clock: &K,
    log: &EventLog,
) -> StoreEnd
    requires disks { 1 < H.disks_out host.old }
    requires stands { Stands store.contents store }
    ensures asks { AsksPort (place_of words.now.listen) (H.asked host.old) (H.asked host.new) }
    ensures disk_cause { result ≡ StoreEnd.DiskFault → H.open_faults host.old < H.open_faults host.new }
    ensures port_cause { result ≡ StoreEnd.PortFault → H.bind_faults host.old < H.bind_faults host.new }
    ensures never_fall { (H.open_faults host.old ≤ H.open_faults host.new) × (H.bind_faults host.old ≤ H.bind_faults host.new) }
    ensures port_back { H.ports_out host.new ≡ H.ports_out host.old }
    ensures disks_back { result ≢ StoreEnd.OutOfMemory → H.disks_out host.old ≡ H.disks_out host.new + 2 }
    ensures done { result ≡ StoreEnd.Done → (H.open_faults host.new ≡ H.open_faults host.old) × (H.bind_faults host.new ≡ H.bind_faults host.old) × IsSome words.now.sessions }
    ensures bound { result ≡ StoreEnd.Done → AsksAt (place_of words.now.listen) (H.asked host.old) (H.asked host.new) }
    ensures ran { (back : List (Option DiskState)) × Hands (H.handed host.old) (given_back back) (H.handed host.new) × EndsStore store result back }
{
    group_law();
    match host.bind(&words.listen) {
        Ok(port) => serve_bound(rt, alloc, store, port, words, host, net, clock, log),
        Err(error) => {
            give_back(host, store);
            unbound(error)
        }
    }
}
