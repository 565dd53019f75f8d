// Cases of one line each: the first word says of which kind one is.
use crate::{loopback, sidecar, words};
use case_texts::cut;
use std::alloc::Global;
use std::io;
use std::io::Write;
use std::net::{Net, TcpListener, TcpStream};
use std::sync::Wait;
use std::thread::Threads;
use std::time::Clock;

// The answer of a line, behind its kind; `None` if it is no case, memory ran out, or a link failed.
fn answer<
    R: Threads
        + Wait
        + Sync
        + Net<Listener = TcpListener, Stream = TcpStream>
        + Clock
        + Copy
        + Send
        + Drop,
>(rt: R, alloc: Global, line: &str) -> Option<String> {
    let (kind, case) = cut(line, ' ');
    let answer = match kind {
        "words" => words::answer(rt, alloc, case)?,
        "sidecar" => sidecar::answer(rt, alloc, case)?,
        "loopback" => loopback::answer(rt, alloc, case)?,
        _ => return None,
    };
    format!(in alloc; "{kind} {answer}").ok()
}

/// Prints the answer of a line. One that is empty or begins with `#` is a remark, and nothing is printed.
pub(crate) fn print_line<
    R: Threads
        + Wait
        + Sync
        + Net<Listener = TcpListener, Stream = TcpStream>
        + Clock
        + Copy
        + Send
        + Drop,
    W: Write,
>(rt: R, alloc: Global, line: &str, out: &mut W) -> io::Result<()> {
    if line.is_empty() || line.starts_with('#') {
        return Ok(());
    }
    match answer(rt, alloc, line) {
        Some(answer) => writeln!(out, "{answer}"),
        None => writeln!(out, "no case, out of memory, or a failed link"),
    }
}
