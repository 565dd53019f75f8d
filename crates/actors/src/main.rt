// The program: the real outside, the words of the command line, the status, and the log of a server on standard error.
//
// It promises nothing of its own: all else that it does is `actors_top::run`. Depends on actors_top, event_log,
// server_ports and actor_ports.
#![tactic(auto)]

mod writer;

use actor_ports::{ReaderSource, SystemClock, TcpDial, WITHOUT_END, Waits, WriterSink};
use actors_top::{Outside, Status, run};
use event_log::EventLog;
use server_ports::SystemHost;
use std::alloc::Global;
use std::fs::{File, Files};
use std::net::{Net, TcpListener, TcpStream};
use std::process::ExitCode;
use std::rt::Env;
use std::sync::atomic::AtomicBool;
use std::sync::{Arc, Wait};
use std::thread::Threads;
use std::time::Clock;
use std::{env, io};
use writer::{Writing, end_writing, start_writing};

/// How long a dial waits for its answer, in milliseconds.
const CONNECT_MS: u64 = 5_000;

/// The same of one to a placement, a store or a standby. A sidecar whose placement is away can look for the other one before its
/// lease has ended.
const SERVER_CONNECT_MS: u64 = 1_500;

/// How long a link to a placement or a store waits for a byte, in milliseconds. One to an application waits without an end.
const LINK_WAIT_MS: u64 = 10_000;

/// How long a link to another sidecar waits for a byte, in milliseconds.
const PEER_WAIT_MS: u64 = 300_000;

/// How long a connection to a server waits: for the next message, and for the whole of one that has begun.
const CONNECTION_WAITS: Waits = Waits {
    quiet_ms: Some(60_000),
    message_ms: Some(30_000),
    whole_ms: None,
};

/// How long a connection to a standby waits: a placement that changes nothing sends nothing.
const STANDBY_WAITS: Waits = Waits {
    quiet_ms: None,
    message_ms: Some(30_000),
    whole_ms: None,
};

fn main(rt: HostRuntime) -> ExitCode {
    ExitCode::from(status(rt))
}

/// Runs the program over the standard streams, the system's files, TCP and its clock; a server with a log. A word that isn't
/// text is a usage error.
fn status<
    R: Env
        + AllocGlobal
        + Input
        + Print
        + Eprint
        + Files<File = File>
        + Net<Listener = TcpListener, Stream = TcpStream>
        + Clock
        + Threads
        + Wait
        + Sync
        + Send
        + Copy
        + Drop
        + 'static,
>(rt: R) -> u8 {
    let words = match read_words(&rt) {
        Ok(words) => words,
        Err(refused) => return refused as u8,
    };
    // One flag for all connections, so that they end together.
    let Ok(ended) = Arc::new(rt.alloc(), AtomicBool::new(false)) else {
        return Status::OutOfMemory as u8;
    };
    let (Ok(app_ended), Ok(peers_ended), Ok(host_ended)) = (
        Arc::try_clone(&ended),
        Arc::try_clone(&ended),
        Arc::try_clone(&ended),
    ) else {
        return Status::OutOfMemory as u8;
    };
    let Ok(input) = ReaderSource::new(rt.alloc(), rt.reader()) else {
        return Status::OutOfMemory as u8;
    };
    let connect = Some(CONNECT_MS);
    let mut outside = Outside {
        input,
        output: WriterSink::new(io::writer(&rt)),
        net: TcpDial::new(
            rt.alloc(),
            rt,
            ended,
            Some(SERVER_CONNECT_MS),
            Waits::quiet(LINK_WAIT_MS),
        ),
        app: TcpDial::new(rt.alloc(), rt, app_ended, connect, WITHOUT_END),
        peers: TcpDial::new(
            rt.alloc(),
            rt,
            peers_ended,
            connect,
            Waits::quiet(PEER_WAIT_MS),
        ),
        time: SystemClock::new(rt),
        steady: SystemClock::steady(rt),
        host: SystemHost::new(rt.alloc(), rt, host_ended, waits_of(words.as_slice())),
    };
    let Some(writing) = new_writing(rt.alloc()) else {
        return Status::OutOfMemory as u8;
    };
    let is_writing = is_server(words.as_slice()) && start_writing(rt, &writing);
    let status = run(
        &rt,
        rt.alloc(),
        words.as_slice(),
        &mut outside,
        &writing.log,
    );
    if is_writing {
        end_writing(&rt, &writing);
    }
    status
}

/// A log in which nothing was said.
fn new_writing(alloc: Global) -> Option<Arc<Writing, Global>> {
    let log = EventLog::new(alloc).ok()?;
    Arc::new(alloc, Writing::new(log)).ok()
}

/// Whether these words begin a server: the other commands say nothing in a log.
fn is_server(words: &[String]) -> bool {
    match words {
        [command, ..] => matches!(
            command.as_str(),
            "placement" | "store" | "sidecar" | "standby"
        ),
        [] => false,
    }
}

/// How long the connections to the server of these words wait.
fn waits_of(words: &[String]) -> Waits {
    match words {
        [command, ..] if command.as_str() == "standby" => STANDBY_WAITS,
        _ => CONNECTION_WAITS,
    }
}

/// The words after the program's name, or the status that the program ends with if they can't be read.
fn read_words<R: Env + AllocGlobal>(rt: &R) -> Result<Vec<String>, Status> {
    match words(rt) {
        Ok(words) => Ok(words),
        Err(fault) if fault.kind() == io::ErrorKind::OutOfMemory => Err(Status::OutOfMemory),
        Err(_) => Err(Status::Usage),
    }
}

/// The words after the program's name.
fn words<R: Env + AllocGlobal>(rt: &R) -> io::Result<Vec<String>> {
    let mut args = env::args(rt)?;
    let _name = args.next();
    let mut words = Vec::new(rt.alloc());
    for word in args {
        words.push(word)?;
    }
    Ok(words)
}
