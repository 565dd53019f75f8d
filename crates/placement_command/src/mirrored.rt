// A placement over a disk of the host and its standby.
ghost use Rattle.std.specs.Prelude.{◌≡◌, ◌≢◌, ◌⊎◌, ◌<◌, ◌≤◌, ◌+◌, true, false, None, [], ◌∷◌, List, Option, IsSome, IsTrue};
ghost use Rattle.actor_ports.specs.Traffic.{TakesBack};
ghost use Rattle.disk_model.specs.Disk.{DiskState};
ghost use Rattle.server_ports.specs.Hosts.{Hands, place_of};
ghost use Rattle.placement_command.specs.Commands.{AsksBoth, AsksPorts};
ghost use Rattle.placement_command.specs.Mirrors.{DialsStandby, GivesLink, MirrorCause};
ghost use Rattle.placement_command.specs.Runs.{EndsNode, IsPortsEnd, IsServedEnd, IsUnopened, RunsDisk, RunsMirrored, given_back};

use crate::back::{NodeBack, disk_end, unbound};
use crate::command::PlacementEnd;
use crate::ends::end_of;
use crate::serving::serve_node;
use actor_names::Address;
use actor_ports::{Clock, Dial, PortError};
use command_words::PlacementWords;
use event_log::EventLog;
use placement_node::{PlacementNode, node_law};
use server_ports::Host;
use standby_core::Mirror;
use std::alloc::Global;
use std::sync::Wait;
use std::thread::Threads;

// How the command ends if its standby doesn't get the bytes of the disk.
fn unattached(error: PortError) -> PlacementEnd
    ensures disk { result ≡ PlacementEnd.DiskFault → error ≡ PortError.Failed }
    ensures either { IsUnopened result }
{
    match error {
        PortError::Failed => PlacementEnd::DiskFault,
        PortError::OutOfMemory => PlacementEnd::OutOfMemory,
    }
}

// Gives back the disk and the link of a mirror, and answers whether the disk has failed.
fn give_both<H: Host, N: Dial>(host: &mut H, net: &mut N, mirror: Mirror<H::Store, N::Link>) -> bool
    requires disk { 0 < H.disks_out host.old }
    requires link { 0 < N.room net.old }
    ensures failed { IsTrue result → H.open_faults host.old < H.open_faults host.new }
    ensures quiet { result ≡ false → H.open_faults host.new ≡ H.open_faults host.old }
    ensures cause { 0 < H.Store.disk_faults mirror.disk + (N.Link.read_faults mirror.link + mirror.unheard) → MirrorCause N.Link.read_traffic (H.open_faults host.old) (H.open_faults host.new) (N.dial_faults net.old) (N.dial_faults net.new) }
    ensures never_fall { (H.open_faults host.old ≤ H.open_faults host.new) × (N.dial_faults net.old ≤ N.dial_faults net.new) }
    ensures out { H.disks_out host.old ≡ H.disks_out host.new + 1 }
    ensures ports { (H.ports_out host.new ≡ H.ports_out host.old) × (H.bind_faults host.new ≡ H.bind_faults host.old) }
    ensures asks { H.asked host.new ≡ H.asked host.old }
    ensures hands { Hands (H.handed host.old) (given_back (H.Store.told mirror.disk ∷ [])) (H.handed host.new) }
    ensures takes_back { TakesBack (N.dialled net.old) (N.dialled net.new) (N.Link.read_traffic mirror.link) }
{
    let (disk, link) = mirror.detach();
    let failed = H::disk_failed(&disk);
    host.done_disk(disk);
    net.done(link);
    failed
}

// How the command ends by its ports, by whether the node has met a fault, and by whether the disk has failed.
fn mirror_end(end: PlacementEnd, is_shut: bool, disk_failed: bool) -> PlacementEnd
    requires { IsPortsEnd end }
    ensures cause { result ≡ PlacementEnd.DiskFault → (is_shut ≡ true) ⊎ IsTrue disk_failed }
    ensures port { result ≡ PlacementEnd.PortFault → end ≡ PlacementEnd.PortFault }
    ensures done { result ≡ PlacementEnd.Done → (disk_failed ≡ false) × (end ≡ PlacementEnd.Done) }
    ensures opened { IsServedEnd result }
{
    if is_shut {
        return PlacementEnd::DiskFault;
    }
    disk_end(end, disk_failed)
}

// Serves the node, and gives back its disk and its link.
fn serve_mirrored<R: Threads + Wait + Sync, H: Host, N: Dial, K: Clock>(
    rt: &R,
    alloc: Global,
    node: PlacementNode<Mirror<H::Store, N::Link>>,
    words: &PlacementWords<'_>,
    host: &mut H,
    net: &mut N,
    clock: &K,
    log: &EventLog,
) -> PlacementEnd
    requires disk { 0 < H.disks_out host.old }
    requires link { 0 < N.room net.old }
    requires works { node.journal.is_broken ≡ false }
    requires alone { node.journal.other ≡ None }
    ensures asks { AsksPorts (place_of words.now.server.listen) words.now.http (H.asked host.old) (H.asked host.new) }
    ensures disk_cause { result ≡ PlacementEnd.DiskFault → MirrorCause N.Link.read_traffic (H.open_faults host.old) (H.open_faults host.new) (N.dial_faults net.old) (N.dial_faults net.new) }
    ensures port_cause { result ≡ PlacementEnd.PortFault → H.bind_faults host.old < H.bind_faults host.new }
    ensures never_fall { (H.open_faults host.old ≤ H.open_faults host.new) × (H.bind_faults host.old ≤ H.bind_faults host.new) }
    ensures dials { N.dial_faults net.old ≤ N.dial_faults net.new }
    ensures ports_back { H.ports_out host.new ≡ H.ports_out host.old }
    ensures disk_back { result ≢ PlacementEnd.OutOfMemory → H.disks_out host.old ≡ H.disks_out host.new + 1 }
    ensures link_back { GivesLink N.Link.read_traffic (N.dialled net.old) (N.dialled net.new) result }
    ensures done { result ≡ PlacementEnd.Done → (H.open_faults host.new ≡ H.open_faults host.old) × (H.bind_faults host.new ≡ H.bind_faults host.old) × IsSome words.now.server.sessions }
    ensures bound { result ≡ PlacementEnd.Done → AsksBoth (place_of words.now.server.listen) words.now.http (H.asked host.old) (H.asked host.new) }
    ensures ran { (back : List (Option DiskState)) × Hands (H.handed host.old) (given_back back) (H.handed host.new) × EndsNode node result back }
{
    node_law();
    match serve_node(rt, alloc, node, words, host, net, clock, log) {
        Err(_) => PlacementEnd::OutOfMemory,
        Ok(left) => {
            let NodeBack { node, end } = left;
            let is_shut = node.is_shut();
            let (mirror, _) = node.close();
            let failed = give_both(host, net, mirror);
            mirror_end(end, is_shut, failed)
        }
    }
}

// Opens the placement of a disk and its standby and serves it, and gives back the disk and the link.
fn open_mirrored<R: Threads + Wait + Sync, H: Host, N: Dial, K: Clock>(
    rt: &R,
    alloc: Global,
    mirror: Mirror<H::Store, N::Link>,
    words: &PlacementWords<'_>,
    host: &mut H,
    net: &mut N,
    clock: &mut K,
    log: &EventLog,
) -> PlacementEnd
    requires disk { 0 < H.disks_out host.old }
    requires link { 0 < N.room net.old }
    ensures asks { AsksPorts (place_of words.now.server.listen) words.now.http (H.asked host.old) (H.asked host.new) }
    ensures disk_cause { result ≡ PlacementEnd.DiskFault → MirrorCause N.Link.read_traffic (H.open_faults host.old) (H.open_faults host.new) (N.dial_faults net.old) (N.dial_faults net.new) }
    ensures port_cause { result ≡ PlacementEnd.PortFault → H.bind_faults host.old < H.bind_faults host.new }
    ensures never_fall { (H.open_faults host.old ≤ H.open_faults host.new) × (H.bind_faults host.old ≤ H.bind_faults host.new) }
    ensures dials { N.dial_faults net.old ≤ N.dial_faults net.new }
    ensures ports_back { H.ports_out host.new ≡ H.ports_out host.old }
    ensures disk_back { result ≢ PlacementEnd.OutOfMemory → H.disks_out host.old ≡ H.disks_out host.new + 1 }
    ensures link_back { GivesLink N.Link.read_traffic (N.dialled net.old) (N.dialled net.new) result }
    ensures done { result ≡ PlacementEnd.Done → (H.open_faults host.new ≡ H.open_faults host.old) × (H.bind_faults host.new ≡ H.bind_faults host.old) × IsSome words.now.server.sessions }
    ensures bound { result ≡ PlacementEnd.Done → AsksBoth (place_of words.now.server.listen) words.now.http (H.asked host.old) (H.asked host.new) }
    ensures ran { (back : List (Option DiskState)) × Hands (H.handed host.old) (given_back back) (H.handed host.new) × RunsDisk words.now.server.is_new (K.shown clock.new) (H.Store.told mirror.disk) result back }
{
    node_law();
    match PlacementNode::open(alloc, mirror, words.server.is_new, clock.now_ms()) {
        Ok(node) => serve_mirrored(rt, alloc, node, words, host, net, clock, log),
        Err((error, mirror)) => {
            give_both(host, net, mirror);
            end_of(error)
        }
    }
}

/// Dials the standby, gives it the bytes of the disk, and opens and serves the placement over both. It gives back the disk
/// and the link.
pub(crate) fn run_mirrored<R: Threads + Wait + Sync, H: Host, N: Dial, K: Clock>(
    rt: &R,
    alloc: Global,
    disk: H::Store,
    at: Address,
    words: &PlacementWords<'_>,
    host: &mut H,
    net: &mut N,
    clock: &mut K,
    log: &EventLog,
) -> PlacementEnd
    requires { 0 < H.disks_out host.old }
    ensures asks { AsksPorts (place_of words.now.server.listen) words.now.http (H.asked host.old) (H.asked host.new) }
    ensures disk_cause { result ≡ PlacementEnd.DiskFault → MirrorCause N.Link.read_traffic (H.open_faults host.old) (H.open_faults host.new) (N.dial_faults net.old) (N.dial_faults net.new) }
    ensures port_cause { result ≡ PlacementEnd.PortFault → (H.bind_faults host.old < H.bind_faults host.new) ⊎ (N.dial_faults net.old < N.dial_faults net.new) }
    ensures never_fall { (H.open_faults host.old ≤ H.open_faults host.new) × (H.bind_faults host.old ≤ H.bind_faults host.new) }
    ensures dials { N.dial_faults net.old ≤ N.dial_faults net.new }
    ensures ports_back { H.ports_out host.new ≡ H.ports_out host.old }
    ensures disk_back { result ≢ PlacementEnd.OutOfMemory → H.disks_out host.old ≡ H.disks_out host.new + 1 }
    ensures link_back { DialsStandby N.Link.read_traffic (place_of at) (N.dialled net.old) (N.dialled net.new) result }
    ensures done { result ≡ PlacementEnd.Done → (H.open_faults host.new ≡ H.open_faults host.old) × (H.bind_faults host.new ≡ H.bind_faults host.old) × IsSome words.now.server.sessions }
    ensures bound { result ≡ PlacementEnd.Done → AsksBoth (place_of words.now.server.listen) words.now.http (H.asked host.old) (H.asked host.new) }
    ensures ran { (back : List (Option DiskState)) × Hands (H.handed host.old) (given_back back) (H.handed host.new) × RunsMirrored words.now.server.is_new (K.shown clock.new) (H.Store.told disk) result back }
{
    let link = match net.dial(at.ip, at.port) {
        Ok(link) => link,
        Err(error) => {
            host.done_disk(disk);
            return unbound(error);
        }
    };
    match Mirror::attach(alloc, disk, link) {
        Ok(mirror) => open_mirrored(rt, alloc, mirror, words, host, net, clock, log),
        Err((error, disk, link)) => {
            host.done_disk(disk);
            net.done(link);
            unattached(error)
        }
    }
}
