// One case and its answer.
use super::caller::{HERE, Visit, answers};
use super::host::{add_returned, host_of};
use crate::outside::{CaseOutside, outside_of};
use actor_ports::{MemSink, MemSource};
use actors_top::run;
use case_texts::{add, hex_bytes};
use event_log::EventLog;
use std::alloc::Global;
use std::net::{IpAddr, Ipv4Addr, Net, SocketAddr, TcpListener, TcpStream};
use std::sync::Wait;
use std::thread;
use std::thread::Threads;
use std::time::Clock;

// Appends a word.
fn add_word(alloc: Global, word: &str, words: &mut Vec<String>) -> Option<()> {
    words.push(String::from_str(alloc, word).ok()?).ok()
}

// The words of a command that serves these connections at this port.
fn words_of(alloc: Global, command: &str, port: u16, visit: Visit) -> Option<Vec<String>> {
    let sessions = match visit {
        Visit::Together(count) => count.saturating_add(1),
        Visit::InTurn => 2,
    };
    let mut words = Vec::new(alloc);
    for word in [command, "--journal=journal", "--new"] {
        add_word(alloc, word, &mut words)?;
    }
    words
        .push(format!(in alloc; "--listen=127.0.0.1:{port}").ok()?)
        .ok()?;
    words
        .push(format!(in alloc; "--sessions={sessions}").ok()?)
        .ok()?;
    if matches!(visit, Visit::InTurn) {
        add_word(alloc, "--connections=1", &mut words)?;
    }
    Some(words)
}

// A port of 127.0.0.1 that the system gives, and its number.
fn bound<N: Net<Listener = TcpListener, Stream = TcpStream>>(
    net: &N,
) -> Option<(TcpListener, u16)> {
    let here = SocketAddr::new(IpAddr::V4(Ipv4Addr::from_bits(HERE)), 0);
    let listener = net.bind(here).ok()?;
    let port = listener.local_addr().ok()?.port();
    Some((listener, port))
}

// Runs the command; its status.
fn status_of<
    R: Threads
        + Wait
        + Sync
        + Net<Listener = TcpListener, Stream = TcpStream>
        + Clock
        + Copy
        + Send
        + Drop,
>(rt: R, alloc: Global, words: &[String], outside: &mut CaseOutside<R>, log: &EventLog) -> u8 {
    run(&rt, alloc, words, outside, log)
}

// What is read over the links while the command runs, and its status.
fn served<
    R: Threads
        + Wait
        + Sync
        + Net<Listener = TcpListener, Stream = TcpStream>
        + Clock
        + Copy
        + Send
        + Drop,
>(
    rt: R,
    alloc: Global,
    words: &[String],
    outside: &mut CaseOutside<R>,
    log: &EventLog,
    port: u16,
    visit: Visit,
    bytes: &[u8],
) -> (Option<String>, u8) {
    thread::join(
        &rt,
        || answers(rt, alloc, port, visit, bytes),
        || status_of(rt, alloc, words, outside, log),
    )
}

// Appends what these links are answered by this command, its status, and what it gave back.
fn add_served<
    R: Threads
        + Wait
        + Sync
        + Net<Listener = TcpListener, Stream = TcpStream>
        + Clock
        + Copy
        + Send
        + Drop,
>(
    rt: R,
    alloc: Global,
    command: &str,
    visit: Visit,
    bytes: &[u8],
    text: &mut String,
) -> Option<()> {
    let (listener, port) = bound(&rt)?;
    let words = words_of(alloc, command, port, visit)?;
    let input = MemSource::new(alloc, b"", &[]).ok()?;
    let output = MemSink::new(alloc, &[]).ok()?;
    let mut outside = outside_of(rt, alloc, input, output, host_of(rt, alloc, listener)?)?;
    let log = EventLog::new(alloc).ok()?;
    let (frames, status) = served(
        rt,
        alloc,
        words.as_slice(),
        &mut outside,
        &log,
        port,
        visit,
        bytes,
    );
    add(frames?.as_str(), text)?;
    add(format!(in alloc; " status {status}").ok()?.as_str(), text)?;
    add_returned(alloc, &outside, text)
}

/// The name of a case and its answer; `None` if it is none, memory ran out, or a link failed.
pub(crate) fn answer<
    R: Threads
        + Wait
        + Sync
        + Net<Listener = TcpListener, Stream = TcpStream>
        + Clock
        + Copy
        + Send
        + Drop,
>(rt: R, alloc: Global, line: &str) -> Option<String> {
    let (name, rest) = line.split_once(' ')?;
    let (command, rest) = rest.split_once(' ')?;
    let (count, bytes) = rest.split_once(' ')?;
    let visit = if count == "in-turn" {
        Visit::InTurn
    } else {
        Visit::Together(count.parse::<u64>().ok()?)
    };
    let bytes = hex_bytes(alloc, bytes)?;
    let mut text = format!(in alloc; "{name} ").ok()?;
    add_served(rt, alloc, command, visit, bytes.as_slice(), &mut text)?;
    Some(text)
}
