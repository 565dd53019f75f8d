// The command.
ghost use Rattle.std.specs.Prelude.{◌≡◌, ◌≢◌, ◌<◌, ◌≤◌, None, IfSome, IsSome};
ghost use Rattle.server_ports.specs.Hosts.{Handed, Hands, place_of};
ghost use Rattle.placement_command.specs.Commands.{AsksAll, AsksOnly};
ghost use Rattle.placement_command.specs.Mirrors.{DialsStandby, DiskCause, PortCause};
ghost use Rattle.placement_command.specs.Runs.{IsUnopened, RunsPlacement};

use crate::alone::run_alone;
use crate::mirrored::run_mirrored;
use actor_ports::{Clock, Dial, PortError};
use command_words::PlacementWords;
use event_log::EventLog;
use server_ports::Host;
use std::alloc::Global;
use std::sync::Wait;
use std::thread::Threads;

/// How the command ended.
#[derive(Clone, Copy)]
pub enum PlacementEnd {
    /// As many connections were served as the words say.
    Done,
    /// The disk wasn't opened, or it failed; or the standby failed, its link, or an answer of it.
    DiskFault,
    /// A port wasn't bound, or it failed; or the standby wasn't reached.
    PortFault,
    /// The file isn't a placement's journal, or has no room for the record of the restart, at this offset.
    Damaged { offset: u64 },
    /// There was no memory; or the server was over though no disk has failed, as it is once its gate takes no further
    /// step.
    OutOfMemory,
}

// How the command ends if the disk isn't opened.
fn unopened(error: PortError) -> PlacementEnd
    ensures disk { result ≡ PlacementEnd.DiskFault → error ≡ PortError.Failed }
    ensures either { IsUnopened result }
{
    match error {
        PortError::Failed => PlacementEnd::DiskFault,
        PortError::OutOfMemory => PlacementEnd::OutOfMemory,
    }
}

/// Opens the placement's journal, binds its ports and serves it, until as many connections were served as the words say,
/// or without an end. It ends earlier if the disk or a port fails. If the words name a standby, this is dialled by `net` and
/// gets the bytes of the journal first; from then on each change is done on both before it is answered, and a standby that
/// fails is a disk that fails. What happens meanwhile is said in the log, of which no clause speaks.
pub fn run_placement<R: Threads + Wait + Sync, H: Host, N: Dial, K: Clock>(
    rt: &R,
    alloc: Global,
    words: &PlacementWords<'_>,
    host: &mut H,
    net: &mut N,
    clock: &mut K,
    log: &EventLog,
) -> PlacementEnd
    ensures asks { AsksOnly words.now.server.journal.now (place_of words.now.server.listen) words.now.http (H.asked host.old) (H.asked host.new) }
    // A fault is answered only if the host's count of such faults rose; with a standby, also if the dialler's did, or, of a
    // disk, if an answer of the standby wasn't that a call was done.
    ensures disk_cause { result ≡ PlacementEnd.DiskFault → DiskCause words.now.standby N.Link.read_traffic (H.open_faults host.old) (H.open_faults host.new) (N.dial_faults net.old) (N.dial_faults net.new) }
    ensures port_cause { result ≡ PlacementEnd.PortFault → PortCause words.now.standby (H.bind_faults host.old) (H.bind_faults host.new) (N.dial_faults net.old) (N.dial_faults net.new) }
    ensures never_fall { (H.open_faults host.old ≤ H.open_faults host.new) × (H.bind_faults host.old ≤ H.bind_faults host.new) }
    ensures dials { N.dial_faults net.old ≤ N.dial_faults net.new }
    // Without a standby nothing is dialled. Its link is given back wherever the disk is.
    ensures undialled { words.now.standby ≡ None → net.new ≡ net.old }
    ensures link_back { IfSome words.now.standby (λ at. DialsStandby N.Link.read_traffic (place_of at) (N.dialled net.old) (N.dialled net.new) result) }
    // Each port and the disk are given back; if memory ran out, the disk may be lost.
    ensures ports_back { H.ports_out host.new ≡ H.ports_out host.old }
    ensures disk_back { result ≢ PlacementEnd.OutOfMemory → H.disks_out host.new ≡ H.disks_out host.old }
    // It is done only if no disk and no port has failed, the words name a number of connections, and the ports were bound.
    ensures done { result ≡ PlacementEnd.Done → (H.open_faults host.new ≡ H.open_faults host.old) × (H.bind_faults host.new ≡ H.bind_faults host.old) × IsSome words.now.server.sessions }
    ensures bound { result ≡ PlacementEnd.Done → AsksAll words.now.server.journal.now (place_of words.now.server.listen) words.now.http (H.asked host.old) (H.asked host.new) }
    // What it did to the disk, as a host that tells of its disks tells it: whether it opened it, why the node was refused at
    // the moment that the clock showed, or one legal history of its steps, what a crash leaves at each moment of it, and the
    // state in which the disk is given back. With a standby it may also be given back as it was, with no node opened.
    ensures ran { (given : Handed) × Hands (H.handed host.old) given (H.handed host.new) × RunsPlacement words.now.standby words.now.server.journal.now words.now.server.is_new (K.shown clock.new) result given }
{
    let disk = match host.open_disk(words.server.journal, words.server.is_new) {
        Ok(disk) => disk,
        Err(error) => return unopened(error),
    };
    match words.standby {
        None => run_alone(rt, alloc, disk, words, host, net, clock, log),
        Some(at) => run_mirrored(rt, alloc, disk, at, words, host, net, clock, log),
    }
}
