// An open standby: one session after the other.
ghost use Rattle.std.specs.Prelude.{◌≡◌, ◌⊎◌, ◌<◌, ◌≤◌, ◌+◌, None, Some, List, Option, IsSome};
ghost use Rattle.disk_model.specs.Disk.{DiskState};
ghost use Rattle.server_ports.specs.Hosts.{Hands};
ghost use Rattle.standby_command.specs.Runs.{Serves, ServesDisk, ServesNext, ended_by, given_back, next_end};

use crate::back::give_back;
use crate::command::StandbyEnd;
use actor_ports::{Listen, PortError, SessionEnd};
use disk_model::Disk;
use event_log::{EventLog, Notice};
use server_ports::Host;
use standby_session::standby_session;
use std::alloc::Global;
use std::sync::Wait;

// How the command ends behind a session that ended so, if it does.
fn next_end(end: SessionEnd) -> Option<StandbyEnd>
    ensures { result ≡ next_end end }
{
    match end {
        SessionEnd::Broken { .. } => Some(StandbyEnd::DiskFault),
        _ => None,
    }
}

// How the command ends if no further connection is accepted.
fn unaccepted(error: PortError) -> StandbyEnd
    ensures { ((result ≡ StandbyEnd.PortFault) × (error ≡ PortError.Failed)) ⊎ (result ≡ StandbyEnd.OutOfMemory) }
{
    match error {
        PortError::Failed => StandbyEnd::PortFault,
        PortError::OutOfMemory => StandbyEnd::OutOfMemory,
    }
}

// Says that a session ended so: after how many calls, and whether the disk failed.
fn tell_session(log: &EventLog, end: SessionEnd) {
    let calls = match end {
        SessionEnd::Done { requests }
        | SessionEnd::Malformed { requests }
        | SessionEnd::Broken { requests }
        | SessionEnd::ConnFault { requests }
        | SessionEnd::OutOfMemory { requests }
        | SessionEnd::Spent { requests, count: _ } => requests,
    };
    log.say(Notice::Detached { calls });
    if let SessionEnd::Broken { requests: _ } = end {
        log.say_stop(Notice::DiskFailed);
    }
}

// Serves the next session, and tells how the command ends, if it does.
fn serve_next<R: Wait, D: Disk, L: Listen>(
    rt: &R,
    alloc: Global,
    disk: &mut D,
    port: &mut L,
    log: &EventLog,
) -> Option<StandbyEnd>
    ensures serves { ServesNext (D.told disk.old) (D.told disk.new) result }
    ensures never_fall { (D.disk_faults disk.old ≤ D.disk_faults disk.new) × (L.listen_faults port.old ≤ L.listen_faults port.new) }
    ensures disk_cause { result ≡ Some StandbyEnd.DiskFault → D.disk_faults disk.old < D.disk_faults disk.new }
    ensures port_cause { result ≡ Some StandbyEnd.PortFault → L.listen_faults port.old < L.listen_faults port.new }
{
    let mut conn = match port.accept() {
        Ok(conn) => conn,
        Err(error) => return Some(unaccepted(error)),
    };
    log.say(Notice::Attached);
    let end = standby_session(rt, alloc, disk, &mut conn);
    tell_session(log, end);
    next_end(end)
}

// Serves so many sessions, or up to the first that ends the command.
fn serve_many<R: Wait, D: Disk, L: Listen>(
    rt: &R,
    alloc: Global,
    disk: &mut D,
    port: &mut L,
    most: u64,
    log: &EventLog,
) -> StandbyEnd
    ensures serves { Serves (Some most) (D.told disk.old) (D.told disk.new) result }
    ensures never_fall { (D.disk_faults disk.old ≤ D.disk_faults disk.new) × (L.listen_faults port.old ≤ L.listen_faults port.new) }
    ensures disk_cause { result ≡ StandbyEnd.DiskFault → D.disk_faults disk.old < D.disk_faults disk.new }
    ensures port_cause { result ≡ StandbyEnd.PortFault → L.listen_faults port.old < L.listen_faults port.new }
{
    for _ in 0..most {
        if let Some(end) = serve_next(rt, alloc, disk, port, log) {
            return end;
        }
    }
    StandbyEnd::Done
}

// Serves sessions up to the first that ends the command.
fn serve_on<R: Wait, D: Disk, L: Listen>(
    rt: &R,
    alloc: Global,
    disk: &mut D,
    port: &mut L,
    log: &EventLog,
) -> StandbyEnd
    ensures serves { Serves None (D.told disk.old) (D.told disk.new) result }
    ensures never_fall { (D.disk_faults disk.old ≤ D.disk_faults disk.new) × (L.listen_faults port.old ≤ L.listen_faults port.new) }
    ensures disk_cause { result ≡ StandbyEnd.DiskFault → D.disk_faults disk.old < D.disk_faults disk.new }
    ensures port_cause { result ≡ StandbyEnd.PortFault → L.listen_faults port.old < L.listen_faults port.new }
{
    for _ in rt.forever() {
        if let Some(end) = serve_next(rt, alloc, disk, port, log) {
            return end;
        }
    }
    unreachable!()
}

// Serves as many sessions as the words say, or without an end.
fn serve_sessions<R: Wait, D: Disk, L: Listen>(
    rt: &R,
    alloc: Global,
    disk: &mut D,
    port: &mut L,
    most: Option<u64>,
    log: &EventLog,
) -> StandbyEnd
    ensures serves { Serves most (D.told disk.old) (D.told disk.new) result }
    ensures never_fall { (D.disk_faults disk.old ≤ D.disk_faults disk.new) × (L.listen_faults port.old ≤ L.listen_faults port.new) }
    ensures disk_cause { result ≡ StandbyEnd.DiskFault → D.disk_faults disk.old < D.disk_faults disk.new }
    ensures port_cause { result ≡ StandbyEnd.PortFault → L.listen_faults port.old < L.listen_faults port.new }
{
    match most {
        Some(most) => serve_many(rt, alloc, disk, port, most, log),
        None => serve_on(rt, alloc, disk, port, log),
    }
}

// How the command ends once its sessions have, by what has failed meanwhile: the disk counts first, and then the port.
fn ended(end: StandbyEnd, disk_failed: bool, port_failed: bool) -> StandbyEnd
    ensures { result ≡ ended_by end disk_failed port_failed }
{
    if disk_failed {
        return StandbyEnd::DiskFault;
    }
    if port_failed {
        return StandbyEnd::PortFault;
    }
    end
}

/// Serves sessions at a port, and gives back the port and the disk.
pub(crate) fn serve_bound<R: Wait, H: Host>(
    rt: &R,
    alloc: Global,
    disk: H::Store,
    port: H::Port,
    most: Option<u64>,
    host: &mut H,
    log: &EventLog,
) -> StandbyEnd
    requires disk { 0 < H.disks_out host.old }
    requires port { 0 < H.ports_out host.old }
    ensures asks { H.asked host.new ≡ H.asked host.old }
    ensures disk_cause { result ≡ StandbyEnd.DiskFault → H.open_faults host.old < H.open_faults host.new }
    ensures port_cause { result ≡ StandbyEnd.PortFault → H.bind_faults host.old < H.bind_faults host.new }
    ensures never_fall { (H.open_faults host.old ≤ H.open_faults host.new) × (H.bind_faults host.old ≤ H.bind_faults host.new) }
    ensures port_back { H.ports_out host.old ≡ H.ports_out host.new + 1 }
    ensures disk_back { H.disks_out host.old ≡ H.disks_out host.new + 1 }
    ensures done { result ≡ StandbyEnd.Done → (H.open_faults host.new ≡ H.open_faults host.old) × (H.bind_faults host.new ≡ H.bind_faults host.old) × IsSome most }
    ensures ran { (back : List (Option DiskState)) × Hands (H.handed host.old) (given_back back) (H.handed host.new) × ServesDisk most (H.Store.told disk) result back }
{
    let mut disk = disk;
    let mut port = port;
    let end = serve_sessions(rt, alloc, &mut disk, &mut port, most, log);
    let port_failed = H::port_failed(&port);
    host.done_port(port);
    let disk_failed = give_back(host, disk);
    log.say_stop(Notice::Ended);
    ended(end, disk_failed, port_failed)
}
