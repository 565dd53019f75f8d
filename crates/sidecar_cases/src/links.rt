// Connections in memory: those of callers, and the links to the application, the store and another sidecar.
ghost use Rattle.std.specs.Prelude.{◌≡◌, IfSome};
ghost use Rattle.actor_ports.specs.Memory.{AreFaultless};

use crate::node::address;
use actor_ports::{MemConn, MemDial};
use case_texts::{add, add_escaped, cut, escaped_bytes};
use exchanges::Links;
use std::alloc::Global;

// A connection whose other end sends these bytes, and whose call of this number is to fail: none if it is 0.
fn failing_conn(alloc: Global, bytes: &[u8], failing: u64) -> Option<MemConn>
    ensures { IfSome result (λ conn. conn.faults ≡ 0) }
{
    match MemConn::new(alloc, bytes, &[failing]) {
        Ok(conn) => Some(conn),
        Err(_) => None,
    }
}

/// A connection whose other end sends these bytes.
pub(crate) fn conn_of(alloc: Global, bytes: &[u8]) -> Option<MemConn>
    ensures { IfSome result (λ conn. conn.faults ≡ 0) }
{
    failing_conn(alloc, bytes, 0)
}

// The number behind this sign, and what is left of the text; 0 if it doesn't begin with the sign.
fn number_of(text: &str, sign: char) -> Option<(u64, &str)> {
    match text.strip_prefix(sign) {
        Some(rest) => {
            let (number, left) = rest.split_once(' ')?;
            Some((u64::from_str_radix(number, 10).ok()?, left))
        }
        None => Some((0, text)),
    }
}

/// The connection that a case writes so.
pub(crate) fn conn(alloc: Global, text: &str) -> Option<MemConn>
    ensures { IfSome result (λ conn. conn.faults ≡ 0) }
{
    let (failing, text) = number_of(text, '!')?;
    let (more, text) = number_of(text, '+')?;
    let mut bytes = escaped_bytes(alloc, text)?;
    for _ in 0..more {
        bytes.push(b'a').ok()?;
    }
    failing_conn(alloc, bytes.as_slice(), failing)
}

/// A dialler of six links, of which the first ones answer so and the others nothing.
pub(crate) fn dialler(alloc: Global, text: &str) -> Option<MemDial> {
    let (a, rest) = cut(text, ';');
    let (b, rest) = cut(rest, ';');
    let (c, rest) = cut(rest, ';');
    let (d, rest) = cut(rest, ';');
    let (e, f) = cut(rest, ';');
    let a = conn(alloc, a)?;
    let b = conn(alloc, b)?;
    let c = conn(alloc, c)?;
    let d = conn(alloc, d)?;
    let e = conn(alloc, e)?;
    let f = conn(alloc, f)?;
    let Ok(links) = Vec::from_array(alloc, [a, b, c, d, e, f]) else {
        return None;
    };
    MemDial::new(alloc, links, &[]).ok()
}

/// Links over diallers in memory.
pub(crate) type MemLinks = Links<MemDial, MemDial, MemDial>;

/// Links to an application, to a store and to another sidecar that answer so.
pub(crate) fn links_of(alloc: Global, app: &str, store: &str, peer: &str) -> Option<MemLinks> {
    let app = dialler(alloc, app)?;
    let store = dialler(alloc, store)?;
    let peers = dialler(alloc, peer)?;
    let app_at = address(b"127.0.0.1:3000")?;
    let store_at = address(b"127.0.0.1:3700")?;
    Some(Links::new(app, peers, store, app_at, store_at))
}

// Appends what each link that was given back was sent.
fn add_sent(alloc: Global, dialler: &MemDial, text: &mut String) -> Option<()> {
    add("|", text)?;
    for link in dialler.links() {
        add_escaped(alloc, link.written(), text)?;
        add(";", text)?;
    }
    Some(())
}

/// Appends what the application and the store were sent, and what another sidecar was, if there is one.
pub(crate) fn add_links(
    alloc: Global,
    links: &MemLinks,
    has_peer: bool,
    text: &mut String,
) -> Option<()> {
    add_sent(alloc, &links.app, text)?;
    add_sent(alloc, &links.store, text)?;
    if has_peer {
        add_sent(alloc, &links.peers, text)?;
    }
    Some(())
}
