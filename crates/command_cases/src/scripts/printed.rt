// What is printed of a script.
use super::case::Case;
use std::alloc::Global;
use std::io;
use std::io::Write;
use std::net::{Net, TcpListener, TcpStream};
use std::sync::Wait;
use std::thread::Threads;
use std::time::Clock;

/// The greatest length of a text that is printed whole, in bytes.
const MOST_BYTES: usize = 4_096;

/// How many bytes are printed of either end of a longer text.
const END: usize = 40;

/// Runs a case, and prints its name, its status and what it printed.
pub(crate) fn print_script<
    R: Threads
        + Wait
        + Sync
        + Net<Listener = TcpListener, Stream = TcpStream>
        + Clock
        + Copy
        + Send
        + Drop,
    W: Write,
>(rt: R, alloc: Global, text: &str, out: &mut W) -> io::Result<()> {
    let name = text.split('\n').next().unwrap_or("");
    writeln!(out, "== {name}")?;
    let Some(case) = Case::read(alloc, text) else {
        return writeln!(out, "no case");
    };
    let Some((status, output)) = case.run(rt, alloc) else {
        return writeln!(out, "no memory");
    };
    writeln!(out, "status {status}")?;
    print_text(output.bytes(), out)
}

/// Prints a text, or of a long one its length and both of its ends.
fn print_text<W: Write>(text: &[u8], out: &mut W) -> io::Result<()> {
    let length = text.len();
    if length <= MOST_BYTES {
        return print_piece(text, out);
    }
    writeln!(out, "\\{length} bytes, first and last:")?;
    print_piece(first_bytes(text), out)?;
    print_piece(last_bytes(text), out)
}

fn first_bytes(text: &[u8]) -> &[u8] {
    match text.split_at_checked(END) {
        Some((first, _)) => first,
        None => text,
    }
}

fn last_bytes(text: &[u8]) -> &[u8] {
    match text.split_at_checked(text.len().saturating_sub(END)) {
        Some((_, last)) => last,
        None => text,
    }
}

/// Prints bytes. A backslash and a line feed follow if their last line has no end.
fn print_piece<W: Write>(bytes: &[u8], out: &mut W) -> io::Result<()> {
    out.write_all(bytes)?;
    match bytes.last() {
        None | Some(b'\n') => Ok(()),
        Some(_) => out.write_all(b"\\\n"),
    }
}
