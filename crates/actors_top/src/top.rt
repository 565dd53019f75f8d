// The top call.
ghost use Rattle.std.specs.Prelude.{◌≡◌, ◌≢◌, ◌<◌, ◌≤◌, ◌⊎◌, ◌∷◌, [], true, None, Some, is_some, IfSome, map, codes, string_bytes};
ghost use Rattle.server_ports.specs.Hosts.{place_of};
ghost use Rattle.exchanges.specs.Replies.{place_at};
ghost use Rattle.command_words.specs.Told.{told_placement, told_server, told_sidecar, told_standby};
ghost use Rattle.command_words.specs.Reading.{Asking, Schedule, Drilling, Drill, Hosting, Placing, Placement, Store, Seating, Sidecar, Standing, Standby, has_options, reading};
ghost use Rattle.plain_commands.specs.Drilled.{DrillEnds, DrillsHonestly};
ghost use Rattle.plain_commands.specs.Status.{code_of};
ghost use Rattle.plain_commands.specs.ReplayTold.{Replays};
ghost use Rattle.plain_commands.specs.Schedule.{schedule_of, ScheduleEnds};
ghost use Rattle.plain_commands.specs.declared.status.Status.{Status};
ghost use Rattle.placement_command.specs.declared.command.PlacementEnd.{PlacementEnd};
ghost use Rattle.placement_command.specs.Mirrors.{DialsStandby, MirrorCause};
ghost use Rattle.standby_command.specs.declared.command.StandbyEnd.{StandbyEnd};
ghost use Rattle.store_command.specs.declared.command.StoreEnd.{StoreEnd};
ghost use Rattle.sidecar_command.specs.declared.ends.SidecarEnd.{SidecarEnd};
ghost use Rattle.sidecar_command.specs.Commands.{AsksPorts, DialsOnly, IsSidecarRun};
ghost use Rattle.actors_top.specs.Ran.{RanPlacement, RanStandby, RanStore, is_mirrored, told_by};
ghost use Rattle.actors_top.specs.Server.{TellsServer, placement_damage, placement_status, server_code, standby_status, store_damage, store_status};
ghost use Rattle.actors_top.specs.Sidecar.{TellsEnd, sidecar_code};
ghost use Rattle.actors_top.specs.declared.server.ServerStatus.{ServerStatus};
ghost use Rattle.actors_top.specs.declared.sidecar.SidecarStatus.{SidecarStatus};

use crate::server::{ServerStatus, standby_status, tell_placement, tell_store};
use crate::sidecar::{SidecarStatus, tell_sidecar};
use actor_ports::{Clock, Dial, Sink, Source};
use command_words::{
    CommandWords, PlacementWords, ServerWords, SidecarWords, StandbyWords, WordsError, read_words,
};
use event_log::EventLog;
use placement_command::run_placement;
use plain_commands::{Status, run_plain};
use server_ports::Host;
use sidecar_command::{Callees, run_sidecar};
use standby_command::run_standby;
use std::alloc::Global;
use std::sync::Wait;
use std::thread::Threads;
use store_command::run_store;

/// The outside of the program.
#[derive(Drop)]
pub struct Outside<I, W, N, A, P, T, H> {
    /// The source of a script.
    pub input: I,
    /// The sink of what the command prints.
    pub output: W,
    /// What makes connections to a placement, a store, a standby, and at the start.
    pub net: N,
    /// What makes a sidecar's connections to its application. An application that is given up while it works would let turns
    /// of one actor mix there.
    pub app: A,
    /// What makes its connections to other sidecars.
    pub peers: P,
    /// What gives the time.
    pub time: T,
    /// A clock that nobody sets while the program runs: silence is measured by it.
    pub steady: T,
    /// What opens disks and binds ports.
    pub host: H,
}

// Runs the placement's server.
fn placement<
    R: Threads + Wait + Sync,
    I: Source,
    W: Sink,
    N: Dial,
    A: Dial,
    P: Dial,
    T: Clock,
    H: Host,
>(
    rt: &R,
    alloc: Global,
    words: &PlacementWords<'_>,
    out: &mut Outside<I, W, N, A, P, T, H>,
    log: &EventLog,
) -> ServerStatus
    ensures ran { (end : PlacementEnd) × RanPlacement (told_placement words.now) (T.shown out.new.steady) end (told_by H.asked H.handed H.open_faults H.bind_faults out.old.host) (told_by H.asked H.handed H.open_faults H.bind_faults out.new.host)
        × IfSome words.now.standby (λ at. DialsStandby N.Link.read_traffic (place_of at) (N.dialled out.old.net) (N.dialled out.new.net) end)
        × TellsServer (placement_damage end) (placement_status end) result (W.contents out.old.output) (W.contents out.new.output) }
    ensures only { out.new ≡ record out.old { output = out.new.output; net = out.new.net; steady = out.new.steady; host = out.new.host } }
    ensures undialled { words.now.standby ≡ None → out.new.net ≡ out.old.net }
    ensures sink { result ≡ ServerStatus.SinkFault → W.write_faults out.old.output < W.write_faults out.new.output }
    ensures disk { result ≡ ServerStatus.DiskFault → (H.open_faults out.old.host < H.open_faults out.new.host)
        ⊎ ((is_some words.now.standby ≡ true) × MirrorCause N.Link.read_traffic (H.open_faults out.old.host) (H.open_faults out.new.host) (N.dial_faults out.old.net) (N.dial_faults out.new.net)) }
    ensures port { result ≡ ServerStatus.PortFault → (H.bind_faults out.old.host < H.bind_faults out.new.host) ⊎ (N.dial_faults out.old.net < N.dial_faults out.new.net) }
    ensures ports_back { H.ports_out out.new.host ≡ H.ports_out out.old.host }
    ensures disks_back { result ≢ ServerStatus.OutOfMemory → H.disks_out out.new.host ≡ H.disks_out out.old.host }
{
    let end = run_placement(
        rt,
        alloc,
        words,
        &mut out.host,
        &mut out.net,
        &mut out.steady,
        log,
    );
    tell_placement(alloc, end, &mut out.output)
}

// Runs the store's server.
fn store<
    R: Threads + Wait + Sync,
    I: Source,
    W: Sink,
    N: Dial,
    A: Dial,
    P: Dial,
    T: Clock,
    H: Host,
>(
    rt: &R,
    alloc: Global,
    words: &ServerWords<'_>,
    out: &mut Outside<I, W, N, A, P, T, H>,
    log: &EventLog,
) -> ServerStatus
    ensures ran { (end : StoreEnd) × RanStore (told_server words.now) end (told_by H.asked H.handed H.open_faults H.bind_faults out.old.host) (told_by H.asked H.handed H.open_faults H.bind_faults out.new.host)
        × TellsServer (store_damage end) (store_status end) result (W.contents out.old.output) (W.contents out.new.output) }
    ensures only { out.new ≡ record out.old { output = out.new.output; host = out.new.host } }
    ensures sink { result ≡ ServerStatus.SinkFault → W.write_faults out.old.output < W.write_faults out.new.output }
    ensures disk { result ≡ ServerStatus.DiskFault → H.open_faults out.old.host < H.open_faults out.new.host }
    ensures port { result ≡ ServerStatus.PortFault → H.bind_faults out.old.host < H.bind_faults out.new.host }
    ensures ports_back { H.ports_out out.new.host ≡ H.ports_out out.old.host }
    ensures disks_back { result ≢ ServerStatus.OutOfMemory → H.disks_out out.new.host ≡ H.disks_out out.old.host }
{
    let end = run_store(rt, alloc, words, &mut out.host, &out.net, &out.time, log);
    tell_store(alloc, end, &mut out.output)
}

// Runs a standby's server.
fn standby<
    R: Threads + Wait + Sync,
    I: Source,
    W: Sink,
    N: Dial,
    A: Dial,
    P: Dial,
    T: Clock,
    H: Host,
>(
    rt: &R,
    alloc: Global,
    words: &StandbyWords<'_>,
    out: &mut Outside<I, W, N, A, P, T, H>,
    log: &EventLog,
) -> ServerStatus
    ensures ran { (end : StandbyEnd) × RanStandby (told_standby words.now) end (told_by H.asked H.handed H.open_faults H.bind_faults out.old.host) (told_by H.asked H.handed H.open_faults H.bind_faults out.new.host)
        × (result ≡ standby_status end) }
    ensures only { out.new ≡ record out.old { host = out.new.host } }
    ensures sink { result ≢ ServerStatus.SinkFault }
    ensures disk { result ≡ ServerStatus.DiskFault → H.open_faults out.old.host < H.open_faults out.new.host }
    ensures port { result ≡ ServerStatus.PortFault → H.bind_faults out.old.host < H.bind_faults out.new.host }
    ensures ports_back { H.ports_out out.new.host ≡ H.ports_out out.old.host }
    ensures disks_back { H.disks_out out.new.host ≡ H.disks_out out.old.host }
{
    standby_status(run_standby(rt, alloc, words, &mut out.host, log))
}

// Runs a sidecar.
fn sidecar<
    R: Threads + Wait + Sync,
    I: Source,
    W: Sink,
    N: Dial,
    A: Dial<Link = N::Link>,
    P: Dial<Link = N::Link>,
    T: Clock,
    H: Host,
>(
    rt: &R,
    alloc: Global,
    words: &SidecarWords<'_>,
    out: &mut Outside<I, W, N, A, P, T, H>,
    log: &EventLog,
) -> SidecarStatus
    ensures asks { AsksPorts (place_of words.now.listen) (place_of words.now.peer) (H.asked out.old.host) (H.asked out.new.host) }
    ensures tells { (end : SidecarEnd)
        × IsSidecarRun N.dialled N.Link.read_traffic T.shown (told_sidecar words.now) (N.dialled out.old.net) (N.dialled out.new.net) (N.dial_faults out.old.net) (N.dial_faults out.new.net) end
        × TellsEnd end result (W.contents out.old.output) (W.contents out.new.output) }
    ensures dialled { DialsOnly (place_at words.now.store) (place_at words.now.app_at) (N.dialled out.old.net) (N.dialled out.new.net) }
    ensures unread { out.new.input ≡ out.old.input }
    ensures sink { result ≡ SidecarStatus.SinkFault → W.write_faults out.old.output < W.write_faults out.new.output }
    ensures port { result ≡ SidecarStatus.PortFault → (H.bind_faults out.old.host < H.bind_faults out.new.host) ⊎ (N.dial_faults out.old.net < N.dial_faults out.new.net) }
    ensures ports_back { H.ports_out out.new.host ≡ H.ports_out out.old.host }
    ensures disks { (H.disks_out out.new.host ≡ H.disks_out out.old.host) × (H.open_faults out.new.host ≡ H.open_faults out.old.host) }
{
    let callees = Callees {
        app: &out.app,
        peers: &out.peers,
    };
    let end = run_sidecar(
        rt,
        alloc,
        words,
        &mut out.host,
        &mut out.net,
        &callees,
        &mut out.time,
        &out.steady,
        log,
    );
    tell_sidecar(alloc, &end, &mut out.output)
}

/// Does what the words after the program's name say, and returns the status with which the program ends:
/// 0 done, 2 the words have no reading, 3 a line of the script or a text of the schedule is refused, 4 the source
/// failed, 5 the sink failed, 6 a disk failed, 7 a port failed, 8 out of memory, 9 the file isn't a journal of this
/// server, 10 the script exceeds its limit of 67,108,864 bytes or 1,000,000 lines, 11 the placement wasn't heard or refused
/// the sidecar, 12 the application gave no configuration, 13 the store refused the sidecar's boot.
/// `replay`, `schedule` and `drill` are described at `run_plain`. `placement`, with `--journal PATH`, `--listen ADDR` and
/// perhaps `--new`, `--sessions N` and `--connections N`: a placement over the journal at the path is served at the address, each connection
/// in a thread of its own, until N connections were served, or without an end. With `--new` the file is made if there is
/// none; with `--http ADDR` its state is answered there over HTTP; with `--standby ADDR` each change of the journal is made
/// at the standby there too, which gets all of it first. `store`, with the same options but the last two: a store over
/// the files at the path and at the path with `.2` behind it, in the same way; the second file is made in any case.
/// `sidecar`: a sidecar of an application, which serves callers and other sidecars at two addresses, with a placement and a
/// store at two others; with `--placement2 ADDR` the placement is looked for there too, in turn. `standby`, with
/// `--journal PATH`, `--listen ADDR` and perhaps `--sessions N`: the file at the path, which is made if there is none, is kept
/// as a copy of a placement's journal, by one session after the other. What happens to a server meanwhile is said in the log,
/// of which no clause speaks. Own.
pub fn run<
    R: Threads + Wait + Sync,
    I: Source,
    W: Sink,
    N: Dial,
    A: Dial<Link = N::Link>,
    P: Dial<Link = N::Link>,
    T: Clock,
    H: Host,
>(
    rt: &R,
    alloc: Global,
    words: &[String],
    out: &mut Outside<I, W, N, A, P, T, H>,
    log: &EventLog,
) -> u8
    // Words end as usage only if they have no reading; without a reading, words with options may also run out of memory.
    // Nothing is read or written then.
    ensures usage { result ≡ 2 → reading (map string_bytes words.now) ≡ None }
    ensures no_reading { reading (map string_bytes words.now) ≡ None
        → (result ≡ 2) ⊎ ((result ≡ 8) × (has_options (map string_bytes words.now) ≡ true)) }
    ensures untouched { reading (map string_bytes words.now) ≡ None → out.new ≡ out.old }

    // The status is that of a replay of the source's bytes, and what was written is what that replay prints: the
    // outcomes of the events that the script's lines name. For these the headline holds: no actor is active on two
    // members, and the turns of one actor never mix. Nothing of the outside but the source and the sink is used: no disk is
    // opened, no port bound, no connection made, and the clock isn't read.
    ensures replayed { map string_bytes words.now ≡ codes "replay" ∷ [] → (ended : Status) × (result ≡ code_of ended)
        × Replays (I.remaining out.old.input) (I.remaining out.new.input) ended (W.contents out.old.output) (W.contents out.new.output)
        × (out.new ≡ record out.old { input = out.new.input; output = out.new.output }) }

    // The status is that of the schedule that is asked for, what was written is what it prints, and nothing but the sink
    // is used: the source stays unread.
    ensures scheduled { (asking : Asking) → reading (map string_bytes words.now) ≡ Some (Schedule asking) → (ended : Status) × (result ≡ code_of ended)
        × ScheduleEnds (schedule_of asking) ended (W.contents out.old.output) (W.contents out.new.output) × (out.new ≡ record out.old { output = out.new.output }) }

    // The status is 0 and what was written is the counts of the drill that is asked for, unless the sink failed or
    // there was no memory; nothing but the sink is used, and the source stays unread. No event of the drill declares a running member lost.
    ensures drilled { (d : Drilling) → reading (map string_bytes words.now) ≡ Some (Drill d) → (ended : Status) × (result ≡ code_of ended)
        × DrillEnds d ended (W.contents out.old.output) (W.contents out.new.output) × DrillsHonestly d × (out.new ≡ record out.old { output = out.new.output }) }

    // A placement opens nothing but the path of its words, and binds the addresses. Over a host that tells of its disks it
    // served the node that was opened from this one, or says why not: 0 and 9 have their causes. If the file held the records
    // of a run, what a crash leaves at any moment of a step has the records of the run before the step, or with it. It prints
    // nothing but the place of a damage, and nothing else of the outside is used but the steady clock and, with a standby, the
    // dialler: by that it dials the standby's address once, and the link is given back wherever the disk is.
    ensures placed { (p : Placing) → reading (map string_bytes words.now) ≡ Some (Placement p) → (end : PlacementEnd) × (ended : ServerStatus) × (result ≡ server_code ended)
        × RanPlacement p (T.shown out.new.steady) end (told_by H.asked H.handed H.open_faults H.bind_faults out.old.host) (told_by H.asked H.handed H.open_faults H.bind_faults out.new.host)
        × TellsServer (placement_damage end) (placement_status end) ended (W.contents out.old.output) (W.contents out.new.output)
        × (out.new ≡ record out.old { output = out.new.output; net = out.new.net; steady = out.new.steady; host = out.new.host })
        × (p.standby ≡ None → out.new.net ≡ out.old.net)
        × IfSome p.standby (λ at. DialsStandby N.Link.read_traffic (place_of at) (N.dialled out.old.net) (N.dialled out.new.net) end) }

    // A store opens nothing but the path of its words and the same with `.2` behind it, and binds the address. Over a host that
    // tells of its disks it served the store that was opened from those two, or says why not: 0 and 9 have their causes. What
    // a crash leaves at any moment from the opening on opens with the contents after the acknowledged commands, perhaps with
    // the one under way. It prints nothing but the place of a damage, and nothing else of the outside is used.
    ensures stored { (p : Hosting) → reading (map string_bytes words.now) ≡ Some (Store p) → (end : StoreEnd) × (ended : ServerStatus) × (result ≡ server_code ended)
        × RanStore p end (told_by H.asked H.handed H.open_faults H.bind_faults out.old.host) (told_by H.asked H.handed H.open_faults H.bind_faults out.new.host)
        × TellsServer (store_damage end) (store_status end) ended (W.contents out.old.output) (W.contents out.new.output)
        × (out.new ≡ record out.old { output = out.new.output; host = out.new.host }) }

    // A standby opens nothing but the path of its words, and binds the address. Over a host that tells of its disks it says
    // what its sessions did to this one, each by the calls that were read in it. Nothing is printed, and nothing else of the
    // outside is used.
    ensures stood_by { (s : Standing) → reading (map string_bytes words.now) ≡ Some (Standby s) → (end : StandbyEnd) × (ended : ServerStatus) × (result ≡ server_code ended)
        × RanStandby s end (told_by H.asked H.handed H.open_faults H.bind_faults out.old.host) (told_by H.asked H.handed H.open_faults H.bind_faults out.new.host)
        × (ended ≡ standby_status end) × (out.new ≡ record out.old { host = out.new.host }) }

    // A sidecar asks for nothing but the two addresses of its words, and leaves the source unread. It starts by exchanges with
    // the store and the application of its words, and says that either refused it only by what those answered. It says that
    // it had to stop only if its lease had ended by clocks of this run, or the placement of its words refused its member; after
    // this, and after status 0, all parts of the node that it had started were stopped.
    ensures seated { (s : Seating) → reading (map string_bytes words.now) ≡ Some (Sidecar s) → (end : SidecarEnd) × (ended : SidecarStatus)
        × IsSidecarRun N.dialled N.Link.read_traffic T.shown s (N.dialled out.old.net) (N.dialled out.new.net) (N.dial_faults out.old.net) (N.dial_faults out.new.net) end
        × (result ≡ sidecar_code ended)
        × AsksPorts (place_of s.listen) (place_of s.peer) (H.asked out.old.host) (H.asked out.new.host)
        × TellsEnd end ended (W.contents out.old.output) (W.contents out.new.output) × (out.new.input ≡ out.old.input) }

    // By the dialler that it holds itself a sidecar dials nothing but the store and the application of its words.
    ensures dialled { (s : Seating) → reading (map string_bytes words.now) ≡ Some (Sidecar s)
        → DialsOnly (place_at s.store) (place_at s.app_at) (N.dialled out.old.net) (N.dialled out.new.net) }

    // A fault of the source, the sink, a disk, a port or the dialler is reported only if its count of faults rose; of a placement
    // with a standby, one of the disk also if the dialler's rose, or an answer of the standby wasn't that a call was done. Each
    // port is given back, and each disk; if memory runs out, a server's disk may be lost.
    ensures source { result ≡ 4 → I.read_faults out.old.input < I.read_faults out.new.input }
    ensures sink { result ≡ 5 → W.write_faults out.old.output < W.write_faults out.new.output }
    ensures disk { result ≡ 6 → (H.open_faults out.old.host < H.open_faults out.new.host)
        ⊎ ((is_mirrored (reading (map string_bytes words.now)) ≡ true) × MirrorCause N.Link.read_traffic (H.open_faults out.old.host) (H.open_faults out.new.host) (N.dial_faults out.old.net) (N.dial_faults out.new.net)) }
    ensures port { result ≡ 7 → (H.bind_faults out.old.host < H.bind_faults out.new.host) ⊎ (N.dial_faults out.old.net < N.dial_faults out.new.net) }
    ensures ports_back { H.ports_out out.new.host ≡ H.ports_out out.old.host }
    ensures disks_back { result ≢ 8 → H.disks_out out.new.host ≡ H.disks_out out.old.host }
{
    match read_words(alloc, words) {
        Ok(CommandWords::Placement(words)) => placement(rt, alloc, &words, out, log) as u8,
        Ok(CommandWords::Store(words)) => store(rt, alloc, &words, out, log) as u8,
        Ok(CommandWords::Sidecar(words)) => sidecar(rt, alloc, &words, out, log) as u8,
        Ok(CommandWords::Standby(words)) => standby(rt, alloc, &words, out, log) as u8,
        Err(WordsError::OutOfMemory) => Status::OutOfMemory as u8,
        _ => run_plain(alloc, words, &mut out.input, &mut out.output),
    }
}
