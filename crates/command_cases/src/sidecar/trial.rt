// A trial and its answer.
use super::caller::Port;
use super::link::Dialler;
use super::moments::Moments;
use super::scenes;
use super::silence::Silence;
use super::stage::{Stage, Trial};
use actor_ports::{MemSink, MemSource, SystemClock};
use actors_top::{Outside, run};
use case_texts::{add, add_escaped};
use disk_model::MemDisk;
use event_log::EventLog;
use server_ports::MemHost;
use std::alloc::Global;
use std::sync::Wait;
use std::thread::Threads;
use std::time::Clock;

// The words of the command, but for the numbers of connections.
const WORDS: [&str; 8] = [
    "sidecar",
    "--node=n1",
    "--app-id=shop",
    "--app=127.0.0.1:3000",
    "--listen=127.0.0.1:3500",
    "--peer=127.0.0.1:3501",
    "--placement=127.0.0.1:3600",
    "--store=127.0.0.1:3700",
];

// A placement that answers its last turn at the first moment, and the clocks show the second one in the end.
fn silent(answered_at: u64, ends_at: u64) -> Option<Trial> {
    Some(Trial::Silent(Silence {
        answered_at,
        ends_at,
    }))
}

fn trial_of(name: &str) -> Option<Trial> {
    match name {
        "serves_two_connections_at_once" => Some(Trial::TwoActors),
        "end_follows_application_reply" => Some(Trial::OneActor),
        "second_connection_waits_for_first" => Some(Trial::OneAtOnce),
        "ended_turn_answers_aborted" => Some(Trial::Moved),
        "stopped_turn_answers_stopped" => Some(Trial::Refused),
        "lease_holds_a_millisecond_less_than_five_seconds" => silent(1_000, 6_000),
        "lease_has_ended_past_five_seconds" => silent(1_000, 6_001),
        "late_answer_extends_lease_from_before_its_turn" => silent(4_000, 6_000),
        _ => None,
    }
}

// What the second caller of a trial sends, if it has one.
fn second_of(trial: Trial) -> Option<&'static [u8]> {
    match trial {
        Trial::TwoActors | Trial::OneAtOnce => Some(scenes::OTHER_CALL),
        Trial::OneActor => Some(scenes::CALL),
        Trial::Moved | Trial::Refused | Trial::Silent(_) => None,
    }
}

fn words_of(alloc: Global, trial: Trial) -> Option<Vec<String>> {
    let sessions = match second_of(trial) {
        Some(_) => "--sessions=2",
        None => "--sessions=1",
    };
    let mut words = Vec::new(alloc);
    for word in WORDS {
        words.push(String::from_str(alloc, word).ok()?).ok()?;
    }
    words.push(String::from_str(alloc, sessions).ok()?).ok()?;
    if trial == Trial::OneAtOnce {
        words
            .push(String::from_str(alloc, "--connections=1").ok()?)
            .ok()?;
    }
    Some(words)
}

// The sidecar's two ports.
fn host_of<'a, R: Wait + Copy + Send + Drop>(
    rt: R,
    alloc: Global,
    stage: &'a Stage,
) -> Option<MemHost<MemDisk, Port<'a, R>>> {
    let callers = Port {
        rt,
        stage,
        first: Some(scenes::CALL),
        second: second_of(stage.trial),
    };
    let peers = Port {
        rt,
        stage,
        first: None,
        second: None,
    };
    let mut ports = Vec::new(alloc);
    ports.push(callers).ok()?;
    ports.push(peers).ok()?;
    MemHost::new(alloc, Vec::new(alloc), ports, &[]).ok()
}

// Runs the sidecar, and answers its status and what it printed.
fn status_of<R: Threads + Wait + Clock + Sync + Send + Copy + Drop>(
    rt: R,
    alloc: Global,
    stage: &Stage,
) -> Option<(u8, MemSink)> {
    let words = words_of(alloc, stage.trial)?;
    let mut outside = Outside {
        input: MemSource::new(alloc, b"", &[]).ok()?,
        output: MemSink::new(alloc, &[]).ok()?,
        net: Dialler { stage, room: 0 },
        app: Dialler { stage, room: 0 },
        peers: Dialler { stage, room: 0 },
        time: SystemClock::new(Moments { rt, stage }),
        steady: SystemClock::new(Moments { rt, stage }),
        host: host_of(rt, alloc, stage)?,
    };
    let log = EventLog::new(alloc).ok()?;
    let status = run(&rt, alloc, words.as_slice(), &mut outside, &log);
    Some((status, outside.output))
}

// Appends `|` and the bytes.
fn add_bytes(alloc: Global, bytes: &[u8], text: &mut String) -> Option<()> {
    add("|", text)?;
    add_escaped(alloc, bytes, text)
}

/// The name of a trial and its answer; `None` if it is none, or memory ran out.
pub(crate) fn answer<R: Threads + Wait + Clock + Sync + Send + Copy + Drop>(
    rt: R,
    alloc: Global,
    name: &str,
) -> Option<String> {
    let stage = Stage::new(alloc, trial_of(name)?);
    let (status, printed) = status_of(rt, alloc, &stage)?;
    let calls = if stage.had_two_at_once() {
        "two calls at once"
    } else {
        "one call at a time"
    };
    let mut text = format!(in alloc; "{name} status {status}, {calls}").ok()?;
    add_bytes(alloc, stage.first.lock(&rt).as_slice(), &mut text)?;
    add_bytes(alloc, stage.second.lock(&rt).as_slice(), &mut text)?;
    add_bytes(alloc, printed.bytes(), &mut text)?;
    Some(text)
}
