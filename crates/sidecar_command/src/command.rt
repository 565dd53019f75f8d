// The command.
ghost use Rattle.std.specs.Prelude.{◌≡◌, ◌<◌, ◌≤◌, ◌⊎◌, List, Err, IfOk};
ghost use Rattle.server_ports.specs.Hosts.{place_of};
ghost use Rattle.command_words.specs.Told.{told_sidecar};
ghost use Rattle.exchanges.specs.Exchanges.{Exchange, Dialling};
ghost use Rattle.exchanges.specs.Replies.{place_at};
ghost use Rattle.sidecar_start.specs.declared.end.StartEnd.{StartEnd};
ghost use Rattle.sidecar_start.specs.Starting.{IsStart};
ghost use Rattle.frame_wire.specs.declared.frame.Frame.TheVariants as frames;
ghost use Rattle.frame_wire.specs.Frames.{payload};
ghost use Rattle.part_model.specs.Settings.{AreShallow};
ghost use Rattle.sidecar_command.specs.Commands.{AsksPorts, DialsOnly, IsServed, IsSidecarRun, parts_in, start_words};

use crate::callees::Callees;
use crate::ends::{SidecarEnd, unstarted};
use crate::serving::serve_started;
use actor_names::{OutOfMemory, read_app_id, read_node, read_space};
use actor_ports::{Clock, Dial};
use command_words::SidecarWords;
use event_log::{EventLog, Notice};
use server_ports::Host;
use sidecar_node::SidecarNode;
use sidecar_start::{StartEnd, StartWords, Started, start};
use std::alloc::Global;
use std::sync::Wait;
use std::thread::Threads;

// What the sidecar is told of itself. The texts have the forms of names, so that only memory can be wanting.
fn start_words(alloc: Global, words: &SidecarWords<'_>) -> Result<StartWords, OutOfMemory>
    ensures { IfOk result (λ told. told ≡ start_words (told_sidecar words.now)) }
{
    let Ok(space) = read_space(words.space.as_bytes()) else {
        return Err(OutOfMemory);
    };
    let Ok(node) = read_node(words.node.as_bytes()) else {
        return Err(OutOfMemory);
    };
    let Ok(app) = read_app_id(alloc, words.app.as_bytes()) else {
        return Err(OutOfMemory);
    };
    Ok(StartWords {
        space,
        node,
        app,
        app_at: words.app_at,
        peer_at: words.peer,
        store_at: words.store,
    })
}

// The number of parts that a sidecar may have.
fn parts_of(words: &SidecarWords<'_>) -> u8
    ensures are { result ≡ parts_in words.now.parts }
    ensures some { 1 ≤ result }
    ensures few { result ≤ 16 }
{
    words.parts.clamp(1, 16)
}

// The start, by what the words tell it.
fn start_by<R: Wait, N: Dial, K: Clock>(
    rt: &R,
    alloc: Global,
    words: &SidecarWords<'_>,
    net: &mut N,
    clock: &mut K,
) -> Result<Started, StartEnd>
    ensures starts { (xs : List Exchange)
        × IsStart (start_words (told_sidecar words.now)) xs result
        × Dialling xs (N.dialled net.old) (N.dialled net.new) (N.dial_faults net.old) (N.dial_faults net.new) }
    ensures fits { IfOk result (λ s. payload.Fits (frames.Register s.host)) }
    ensures shallow { IfOk result (λ s. AreShallow s.kinds) }
    ensures fault { result ≡ Err StartEnd.DialFault → N.dial_faults net.old < N.dial_faults net.new }
{
    match start_words(alloc, words) {
        Ok(told) => start(rt, alloc, net, clock, &told),
        Err(_) => Err(StartEnd::OutOfMemory),
    }
}

// Serves the sidecar that has started.
fn serve_new<
    R: Threads + Wait + Sync,
    H: Host,
    N: Dial,
    A: Dial<Link = N::Link>,
    P: Dial<Link = N::Link>,
    K: Clock,
>(
    rt: &R,
    alloc: Global,
    started: Started,
    words: &SidecarWords<'_>,
    host: &mut H,
    net: &N,
    callees: &Callees<'_, A, P>,
    clock: &K,
    steady: &K,
    log: &EventLog,
) -> SidecarEnd
    requires fits { payload.Fits (frames.Register started.host) }
    requires shallow { AreShallow started.kinds }
    ensures asks { AsksPorts (place_of words.now.listen) (place_of words.now.peer) (H.asked host.old) (H.asked host.new) }
    ensures port_cause { result ≡ SidecarEnd.PortFault → H.bind_faults host.old < H.bind_faults host.new }
    ensures ends { IsServed N.dialled N.Link.read_traffic K.shown (told_sidecar words.now) started result }
    ensures never_falls { H.bind_faults host.old ≤ H.bind_faults host.new }
    ensures ports_back { H.ports_out host.new ≡ H.ports_out host.old }
    ensures disks { (H.disks_out host.new ≡ H.disks_out host.old) × (H.open_faults host.new ≡ H.open_faults host.old) }
{
    let Started { host: own, kinds } = started;
    match SidecarNode::new(alloc, own, kinds, parts_of(words)) {
        Ok(made) => {
            let (node, seats) = made;
            serve_started(
                rt, alloc, &node, seats, words, host, net, callees, clock, steady, log,
            )
        }
        Err(_) => SidecarEnd::OutOfMemory,
    }
}

// Says which of the store and the application a sidecar doesn't start for.
fn tell_unstarted(log: &EventLog, words: &SidecarWords<'_>, end: &StartEnd) {
    match end {
        StartEnd::StoreRefused { code } => log.say_stop(Notice::StoreRefused {
            at: words.store,
            code: *code,
        }),
        StartEnd::AppStatus { .. } | StartEnd::AppUnreadable | StartEnd::AppConfig { .. } => {
            log.say_stop(Notice::NotConfigured { at: words.app_at });
        }
        StartEnd::DialFault | StartEnd::OutOfMemory => {}
    }
}

/// Runs a sidecar. The store draws its boot, and its application says what it hosts; then it binds its two ports and serves
/// them, until as many connections of callers were served as the words say, or without an end. It ends earlier if it
/// doesn't start, has to stop, or a port fails. It starts by `net`, which gives it the connections to the placement and the
/// store too; those of turns come from `callees`. Silence is measured by `steady`, all else by `clock`. What
/// happens meanwhile is said in the log, of which no clause speaks.
pub fn run_sidecar<
    R: Threads + Wait + Sync,
    H: Host,
    N: Dial,
    A: Dial<Link = N::Link>,
    P: Dial<Link = N::Link>,
    K: Clock,
>(
    rt: &R,
    alloc: Global,
    words: &SidecarWords<'_>,
    host: &mut H,
    net: &mut N,
    callees: &Callees<'_, A, P>,
    clock: &mut K,
    steady: &K,
    log: &EventLog,
) -> SidecarEnd
    ensures asks { AsksPorts (place_of words.now.listen) (place_of words.now.peer) (H.asked host.old) (H.asked host.new) }
    // By the dialler that it holds itself it dials nothing but the addresses of its words.
    ensures dialled { DialsOnly (place_at words.now.store) (place_at words.now.app_at) (N.dialled net.old) (N.dialled net.new) }
    // A fault is answered only if a count of such faults rose, a start that failed only by what the store and the application
    // answered, and a stop only for a sound cause, once all parts were stopped.
    ensures port_cause { result ≡ SidecarEnd.PortFault → (H.bind_faults host.old < H.bind_faults host.new) ⊎ (N.dial_faults net.old < N.dial_faults net.new) }
    ensures ends { IsSidecarRun N.dialled N.Link.read_traffic K.shown (told_sidecar words.now) (N.dialled net.old) (N.dialled net.new) (N.dial_faults net.old) (N.dial_faults net.new) result }
    ensures never_falls { H.bind_faults host.old ≤ H.bind_faults host.new }
    // Each port is given back, and no disk is opened.
    ensures ports_back { H.ports_out host.new ≡ H.ports_out host.old }
    ensures disks { (H.disks_out host.new ≡ H.disks_out host.old) × (H.open_faults host.new ≡ H.open_faults host.old) }
{
    match start_by(rt, alloc, words, net, clock) {
        Ok(started) => serve_new(
            rt, alloc, started, words, host, net, callees, clock, steady, log,
        ),
        Err(end) => {
            tell_unstarted(log, words, &end);
            unstarted(end)
        }
    }
}
