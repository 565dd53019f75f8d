// Words alone: a command without input, disks and ports.
use crate::scripts::{Case, read_words};
use case_texts::add_escaped;
use std::alloc::Global;
use std::net::{Net, TcpListener, TcpStream};
use std::sync::Wait;
use std::thread::Threads;
use std::time::Clock;

/// The words of a case with the `|` behind them, its status, and what it printed; `None` if it is none, or memory ran out.
pub(crate) fn answer<
    R: Threads
        + Wait
        + Sync
        + Net<Listener = TcpListener, Stream = TcpStream>
        + Clock
        + Copy
        + Send
        + Drop,
>(rt: R, alloc: Global, text: &str) -> Option<String> {
    let words = read_words(alloc, text.strip_suffix('|')?)?;
    let (status, output) = Case::new(alloc, words).run(rt, alloc)?;
    let mut answer = format!(in alloc; "{text}status {status}|").ok()?;
    add_escaped(alloc, output.bytes(), &mut answer)?;
    Some(answer)
}
