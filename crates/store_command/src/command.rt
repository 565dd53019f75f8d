// The command.
ghost use Rattle.std.specs.Prelude.{◌≡◌, ◌≢◌, ◌<◌, ◌≤◌, ◌+◌, List, Option, IfOk, IsSome, string_bytes};
ghost use Rattle.disk_model.specs.Disk.{DiskState};
ghost use Rattle.server_ports.specs.Hosts.{Handed, Hands, place_of};
ghost use Rattle.store_command.specs.Commands.{second_path, AsksAll, AsksAt, AsksOnly, AsksPort, AsksSecond, AsksSecondAll};
ghost use Rattle.store_command.specs.Runs.{IsUnopened, RunsFirst, RunsPair, RunsStore, given_back};

use crate::back::give_both;
use crate::ends::end_of;
use crate::serving::serve_opened;
use actor_ports::{Clock, Dial, PortError};
use command_words::ServerWords;
use event_log::EventLog;
use fence_rows::Fenced;
use server_ports::Host;
use std::alloc::{AllocError, Global};
use std::sync::Wait;
use std::thread::Threads;

/// How the command ended.
#[derive(Clone, Copy)]
pub enum StoreEnd {
    /// As many connections were served as the words say.
    Done,
    /// A disk wasn't opened, or it failed.
    DiskFault,
    /// The port wasn't bound, or it failed.
    PortFault,
    /// The files aren't a store's journal: the one that counts ceases to be one at this offset, or is too long, or is of
    /// the first format and can't be written anew.
    Damaged { offset: u64 },
    /// There was no memory; or the server was over though no disk has failed, as it is once its gate takes no further
    /// step.
    OutOfMemory,
}

// How the command ends if a disk isn't opened.
fn unopened(error: PortError) -> StoreEnd
    ensures disk { result ≡ StoreEnd.DiskFault → error ≡ PortError.Failed }
    ensures either { IsUnopened result }
{
    match error {
        PortError::Failed => StoreEnd::DiskFault,
        PortError::OutOfMemory => StoreEnd::OutOfMemory,
    }
}

// The path of the second file.
fn second_path(alloc: Global, path: &str) -> Result<String, AllocError>
    ensures { IfOk result (λ s. string_bytes s ≡ second_path path.now) }
{
    let mut second = String::from_str(alloc, path)?;
    second.push_str(".2")?;
    Ok(second)
}

// Opens the store of two disks and serves it, and gives both back.
fn run_both<R: Threads + Wait + Sync, H: Host, N: Dial, K: Clock>(
    rt: &R,
    alloc: Global,
    first: H::Store,
    second: H::Store,
    words: &ServerWords<'_>,
    host: &mut H,
    net: &N,
    clock: &K,
    log: &EventLog,
) -> StoreEnd
    requires { 1 < H.disks_out host.old }
    ensures asks { AsksPort (place_of words.now.listen) (H.asked host.old) (H.asked host.new) }
    ensures disk_cause { result ≡ StoreEnd.DiskFault → H.open_faults host.old < H.open_faults host.new }
    ensures port_cause { result ≡ StoreEnd.PortFault → H.bind_faults host.old < H.bind_faults host.new }
    ensures never_fall { (H.open_faults host.old ≤ H.open_faults host.new) × (H.bind_faults host.old ≤ H.bind_faults host.new) }
    ensures port_back { H.ports_out host.new ≡ H.ports_out host.old }
    ensures disks_back { result ≢ StoreEnd.OutOfMemory → H.disks_out host.old ≡ H.disks_out host.new + 2 }
    ensures done { result ≡ StoreEnd.Done → (H.open_faults host.new ≡ H.open_faults host.old) × (H.bind_faults host.new ≡ H.bind_faults host.old) × IsSome words.now.sessions }
    ensures bound { result ≡ StoreEnd.Done → AsksAt (place_of words.now.listen) (H.asked host.old) (H.asked host.new) }
    ensures ran { (back : List (Option DiskState)) × Hands (H.handed host.old) (given_back back) (H.handed host.new) × RunsPair words.now.is_new (H.Store.told first) (H.Store.told second) result back }
{
    match Fenced::open(alloc, first, second, words.is_new) {
        Ok(store) => serve_opened(rt, alloc, store, words, host, net, clock, log),
        Err((error, first, second)) => {
            give_both(host, first, second);
            end_of(error)
        }
    }
}

// Opens the second disk, serves the store of both, and gives both back.
fn run_first<R: Threads + Wait + Sync, H: Host, N: Dial, K: Clock>(
    rt: &R,
    alloc: Global,
    first: H::Store,
    path: &str,
    words: &ServerWords<'_>,
    host: &mut H,
    net: &N,
    clock: &K,
    log: &EventLog,
) -> StoreEnd
    requires { 0 < H.disks_out host.old }
    ensures asks { AsksSecond path.now (place_of words.now.listen) (H.asked host.old) (H.asked host.new) }
    ensures disk_cause { result ≡ StoreEnd.DiskFault → H.open_faults host.old < H.open_faults host.new }
    ensures port_cause { result ≡ StoreEnd.PortFault → H.bind_faults host.old < H.bind_faults host.new }
    ensures never_fall { (H.open_faults host.old ≤ H.open_faults host.new) × (H.bind_faults host.old ≤ H.bind_faults host.new) }
    ensures port_back { H.ports_out host.new ≡ H.ports_out host.old }
    ensures disks_back { result ≢ StoreEnd.OutOfMemory → H.disks_out host.old ≡ H.disks_out host.new + 1 }
    ensures done { result ≡ StoreEnd.Done → (H.open_faults host.new ≡ H.open_faults host.old) × (H.bind_faults host.new ≡ H.bind_faults host.old) × IsSome words.now.sessions }
    ensures bound { result ≡ StoreEnd.Done → AsksSecondAll path.now (place_of words.now.listen) (H.asked host.old) (H.asked host.new) }
    ensures ran { (given : Handed) × Hands (H.handed host.old) given (H.handed host.new) × RunsFirst path.now words.now.is_new (H.Store.told first) result given }
{
    match host.open_disk(path, true) {
        Ok(second) => run_both(rt, alloc, first, second, words, host, net, clock, log),
        Err(error) => {
            host.done_disk(first);
            unopened(error)
        }
    }
}

/// Opens the store's two files, the second with `.2` behind the path, binds its port and serves it, until as many
/// connections were served as the words say, or without an end. It ends earlier if a disk or the port fails. The second
/// file is made if there is none. What happens meanwhile is said in the log, of which no clause speaks.
pub fn run_store<R: Threads + Wait + Sync, H: Host, N: Dial, K: Clock>(
    rt: &R,
    alloc: Global,
    words: &ServerWords<'_>,
    host: &mut H,
    net: &N,
    clock: &K,
    log: &EventLog,
) -> StoreEnd
    ensures asks { AsksOnly words.now.journal.now (place_of words.now.listen) (H.asked host.old) (H.asked host.new) }
    // A fault is answered only if the host's count of such faults rose.
    ensures disk_cause { result ≡ StoreEnd.DiskFault → H.open_faults host.old < H.open_faults host.new }
    ensures port_cause { result ≡ StoreEnd.PortFault → H.bind_faults host.old < H.bind_faults host.new }
    ensures never_fall { (H.open_faults host.old ≤ H.open_faults host.new) × (H.bind_faults host.old ≤ H.bind_faults host.new) }
    // The port and both disks are given back; if memory ran out, the disks may be lost.
    ensures port_back { H.ports_out host.new ≡ H.ports_out host.old }
    ensures disks_back { result ≢ StoreEnd.OutOfMemory → H.disks_out host.new ≡ H.disks_out host.old }
    // It is done only if no disk and no port has failed, the words name a number of connections, and the port was bound.
    ensures done { result ≡ StoreEnd.Done → (H.open_faults host.new ≡ H.open_faults host.old) × (H.bind_faults host.new ≡ H.bind_faults host.old) × IsSome words.now.sessions }
    ensures bound { result ≡ StoreEnd.Done → AsksAll words.now.journal.now (place_of words.now.listen) (H.asked host.old) (H.asked host.new) }
    // What it did to the disks, as a host that tells of them tells it: which it opened, why the store was refused, or
    // one legal history of its steps, what a crash leaves at each moment of it, and the states in which the disks are
    // given back.
    ensures ran { (given : Handed) × Hands (H.handed host.old) given (H.handed host.new) × RunsStore words.now.journal.now words.now.is_new result given }
{
    let Ok(second) = second_path(alloc, words.journal) else {
        return StoreEnd::OutOfMemory;
    };
    match host.open_disk(words.journal, words.is_new) {
        Ok(first) => run_first(
            rt,
            alloc,
            first,
            second.as_str(),
            words,
            host,
            net,
            clock,
            log,
        ),
        Err(error) => unopened(error),
    }
}
