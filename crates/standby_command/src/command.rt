// The command.
ghost use Rattle.std.specs.Prelude.{◌≡◌, ◌<◌, ◌≤◌, IsSome};
ghost use Rattle.server_ports.specs.Hosts.{Handed, Hands, place_of};
ghost use Rattle.standby_command.specs.Commands.{AsksAll, AsksOnly};
ghost use Rattle.standby_command.specs.Runs.{IsUnopened, RunsStandby};

use crate::back::{give_back, unbound};
use crate::serving::serve_bound;
use actor_ports::PortError;
use command_words::StandbyWords;
use event_log::{EventLog, Notice};
use server_ports::Host;
use std::alloc::Global;
use std::sync::Wait;

/// How the command ended.
#[derive(Clone, Copy)]
pub enum StandbyEnd {
    /// As many sessions were served as the words say.
    Done,
    /// The disk wasn't opened, or it failed.
    DiskFault,
    /// The port wasn't bound, or it failed.
    PortFault,
    /// There was no memory.
    OutOfMemory,
}

// How the command ends if the disk isn't opened.
fn unopened(error: PortError) -> StandbyEnd
    ensures disk { result ≡ StandbyEnd.DiskFault → error ≡ PortError.Failed }
    ensures either { IsUnopened result }
{
    match error {
        PortError::Failed => StandbyEnd::DiskFault,
        PortError::OutOfMemory => StandbyEnd::OutOfMemory,
    }
}

/// Opens the standby's file, which is made if there is none, binds its port, and serves one session after the other, until
/// as many were served as the words say, or without an end. It ends earlier if the disk or the port fails. A session that
/// ends otherwise, whatever was read in it, is followed by the next one. What happens meanwhile is said in the log, of which
/// no clause speaks.
pub fn run_standby<R: Wait, H: Host>(
    rt: &R,
    alloc: Global,
    words: &StandbyWords<'_>,
    host: &mut H,
    log: &EventLog,
) -> StandbyEnd
    ensures asks { AsksOnly words.now.journal.now (place_of words.now.listen) (H.asked host.old) (H.asked host.new) }
    // A fault is answered only if the host's count of such faults rose.
    ensures disk_cause { result ≡ StandbyEnd.DiskFault → H.open_faults host.old < H.open_faults host.new }
    ensures port_cause { result ≡ StandbyEnd.PortFault → H.bind_faults host.old < H.bind_faults host.new }
    ensures never_fall { (H.open_faults host.old ≤ H.open_faults host.new) × (H.bind_faults host.old ≤ H.bind_faults host.new) }
    // The port and the disk are given back, whatever happened.
    ensures port_back { H.ports_out host.new ≡ H.ports_out host.old }
    ensures disk_back { H.disks_out host.new ≡ H.disks_out host.old }
    // It is done only if no disk and no port has failed, the words name a number of sessions, and the port was bound.
    ensures done { result ≡ StandbyEnd.Done → (H.open_faults host.new ≡ H.open_faults host.old) × (H.bind_faults host.new ≡ H.bind_faults host.old) × IsSome words.now.sessions }
    ensures bound { result ≡ StandbyEnd.Done → AsksAll words.now.journal.now (place_of words.now.listen) (H.asked host.old) (H.asked host.new) }
    // What it did to the disk, as a host that tells of its disks tells it: what its sessions did, one after the other.
    ensures ran { (given : Handed) × Hands (H.handed host.old) given (H.handed host.new) × RunsStandby words.now.journal.now words.now.sessions result given }
{
    let disk = match host.open_disk(words.journal, true) {
        Ok(disk) => disk,
        Err(error) => return unopened(error),
    };
    match host.bind(&words.listen) {
        Ok(port) => {
            log.say(Notice::Listening { at: words.listen });
            serve_bound(rt, alloc, disk, port, words.sessions, host, log)
        }
        Err(error) => {
            give_back(host, disk);
            unbound(error)
        }
    }
}
