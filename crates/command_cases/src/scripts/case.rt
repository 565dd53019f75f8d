// The words of a run, its input, and which of its reads and writes fail.
use super::repeated::add_repeated;
use crate::outside::{bare_host, outside_of};
use actor_ports::{MemSink, MemSource};
use actors_top::run;
use case_texts::escaped_bytes;
use event_log::EventLog;
use std::alloc::Global;
use std::net::{Net, TcpListener, TcpStream};
use std::sync::Wait;
use std::thread::Threads;
use std::time::Clock;

/// What a case says. Reads and writes are numbered from 1.
#[derive(Drop)]
pub(crate) struct Case {
    words: Vec<String>,
    input: Vec<u8>,
    reads: Vec<u64>,
    writes: Vec<u64>,
}

impl Case {
    /// The case of these words, without input and faults.
    pub(crate) fn new(alloc: Global, words: Vec<String>) -> Case {
        Case {
            words,
            input: Vec::new(alloc),
            reads: Vec::new(alloc),
            writes: Vec::new(alloc),
        }
    }

    /// The case of these lines: its name, its words, none if that line is empty, and lines of input.
    /// `None` if a line isn't written as the README says, or if memory runs out.
    pub(crate) fn read(alloc: Global, text: &str) -> Option<Case> {
        let mut lines = text.split('\n');
        let _name = lines.next();
        let words = match lines.next()? {
            "" => Vec::new(alloc),
            line => read_words(alloc, line)?,
        };
        let mut case = Case::new(alloc, words);
        for line in lines {
            case.add_line(alloc, line)?;
        }
        Some(case)
    }

    /// Adds a line of input, or what a line says that begins with a backslash and a word.
    fn add_line(&mut self, alloc: Global, line: &str) -> Option<()> {
        if let Some(rest) = line.strip_prefix("\\repeat ") {
            let (count, text) = rest.split_once(' ')?;
            return add_repeated(alloc, count.parse::<u64>().ok()?, text, &mut self.input);
        }
        if let Some(number) = line.strip_prefix("\\read-fails ") {
            return self.reads.push(number.parse::<u64>().ok()?).ok();
        }
        if let Some(number) = line.strip_prefix("\\write-fails ") {
            return self.writes.push(number.parse::<u64>().ok()?).ok();
        }
        if let Some(text) = line.strip_suffix('\\') {
            return self.add_text(alloc, text);
        }
        self.add_text(alloc, line)?;
        self.input.push(b'\n').ok()
    }

    /// Adds the bytes that a text writes.
    fn add_text(&mut self, alloc: Global, text: &str) -> Option<()> {
        let bytes = escaped_bytes(alloc, text)?;
        self.input.extend_from_slice(bytes.as_slice()).ok()
    }

    /// The status of the run, and what it printed; `None` if memory ran out before.
    pub(crate) fn run<
        R: Threads
            + Wait
            + Sync
            + Net<Listener = TcpListener, Stream = TcpStream>
            + Clock
            + Copy
            + Send
            + Drop,
    >(&self, rt: R, alloc: Global) -> Option<(u8, MemSink)> {
        let input = MemSource::new(alloc, self.input.as_slice(), self.reads.as_slice()).ok()?;
        let output = MemSink::new(alloc, self.writes.as_slice()).ok()?;
        let mut outside = outside_of(rt, alloc, input, output, bare_host(alloc)?)?;
        let log = EventLog::new(alloc).ok()?;
        let status = run(&rt, alloc, self.words.as_slice(), &mut outside, &log);
        Some((status, outside.output))
    }
}

/// The words of a line, separated by one space each; `None` if one is no text, or memory runs out.
pub(crate) fn read_words(alloc: Global, line: &str) -> Option<Vec<String>> {
    let mut words = Vec::new(alloc);
    for word in line.split(' ') {
        let text = escaped_bytes(alloc, word)?;
        words.push(String::from_utf8(text).ok()?).ok()?;
    }
    Some(words)
}
