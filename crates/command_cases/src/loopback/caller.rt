// What calls the server.
use super::link::{read_frame, send};
use crate::outside::dialler;
use actor_ports::{Clock as _, Conn, Dial, StreamConn, SystemClock};
use case_texts::add_hex;
use std::alloc::Global;
use std::net::{Net, TcpStream};
use std::time::Clock;

/// How the links come.
#[derive(Clone, Copy)]
pub(crate) enum Visit {
    /// So many at once, behind one that is sent half of the bytes.
    Together(u64),
    /// Two at once, at a server that serves one at a time.
    InTurn,
}

// How long a server that serves one at a time gets to answer the second one before the first, in milliseconds.
const WHILE_MS: u64 = 100;

/// 127.0.0.1.
pub(crate) const HERE: u32 = 0x7f00_0001;

// So many links to the port, open at once.
fn dial_all<N: Net<Stream = TcpStream> + Clock + Copy + Send>(
    net: N,
    alloc: Global,
    port: u16,
    count: u64,
) -> Option<Vec<StreamConn<TcpStream, N>>> {
    let mut dialler = dialler(net, alloc)?;
    let mut links = Vec::new(alloc);
    for _ in 0..count {
        links.push(dialler.dial(HERE, port).ok()?).ok()?;
    }
    Some(links)
}

// Sends bytes over a link, and appends the frame that is read from it.
fn ask<C: Conn>(alloc: Global, link: &mut C, bytes: &[u8], text: &mut String) -> Option<()> {
    send(link, bytes)?;
    let frame = read_frame(alloc, link)?;
    add_hex(alloc, frame.as_slice(), text)
}

// Asks over each link, from the last one on; each is closed then.
fn ask_all<C: Conn>(alloc: Global, links: Vec<C>, bytes: &[u8], text: &mut String) -> Option<()> {
    let mut links = links;
    for _ in 0..links.len() {
        let mut link = links.pop()?;
        ask(alloc, &mut link, bytes, text)?;
    }
    Some(())
}

// The frames that are read over so many links at once and one more. That one is sent half of the bytes first, and what is
// left of them when all the others were answered. `None` if a link fails.
fn together<N: Net<Stream = TcpStream> + Clock + Copy + Send>(
    net: N,
    alloc: Global,
    port: u16,
    count: u64,
    bytes: &[u8],
) -> Option<String> {
    let mut text = String::new(alloc);
    let (half, rest) = bytes.split_at_checked(bytes.len() / 2)?;
    let mut slow = dial_all(net, alloc, port, 1)?.pop()?;
    send(&mut slow, half)?;
    let links = dial_all(net, alloc, port, count)?;
    ask_all(alloc, links, bytes, &mut text)?;
    ask(alloc, &mut slow, rest, &mut text)?;
    Some(text)
}

// Asks over a link, which is closed then.
fn ask_last<C: Conn>(alloc: Global, link: C, bytes: &[u8], text: &mut String) -> Option<()> {
    let mut link = link;
    ask(alloc, &mut link, bytes, text)
}

// The frames that are read over two links. The first one is sent half of the bytes, the second one all of them, and after a
// while the first one what is left. Its frame is read first, and then it is closed. `None` if a link fails.
fn in_turn<N: Net<Stream = TcpStream> + Clock + Copy + Send>(
    net: N,
    alloc: Global,
    port: u16,
    bytes: &[u8],
) -> Option<String> {
    let mut text = String::new(alloc);
    let (half, rest) = bytes.split_at_checked(bytes.len() / 2)?;
    let mut links = dial_all(net, alloc, port, 2)?;
    let mut second = links.pop()?;
    let mut first = links.pop()?;
    send(&mut first, half)?;
    send(&mut second, bytes)?;
    SystemClock::new(net).pause(WHILE_MS);
    ask_last(alloc, first, rest, &mut text)?;
    ask_last(alloc, second, b"", &mut text)?;
    Some(text)
}

/// The frames that are read over these links. `None` if one fails.
pub(crate) fn answers<N: Net<Stream = TcpStream> + Clock + Copy + Send>(
    net: N,
    alloc: Global,
    port: u16,
    visit: Visit,
    bytes: &[u8],
) -> Option<String> {
    match visit {
        Visit::Together(count) => together(net, alloc, port, count, bytes),
        Visit::InTurn => in_turn(net, alloc, port, bytes),
    }
}
