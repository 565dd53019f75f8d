// Sessions of callers and of other sidecars, and the turns by the clock after them.
ghost use Rattle.sidecar_node.specs.Nodes.{IsSeatsOf};

use crate::links::{MemLinks, add_links, conn, conn_of, links_of};
use crate::node::{clock, later_clock, open_node};
use actor_ports::{MemClock, MemConn};
use actors_api::Side;
use case_texts::{add, add_escaped, cut};
use clock_turns::tick_turn;
use reminder_turns::reminder_turn;
use sidecar_node::Desk;
use sidecar_requests::sidecar_session;
use std::alloc::Global;
use std::sync::Wait;

/// What follows the sessions of a case.
#[derive(Clone, Copy)]
pub(crate) enum Then {
    Nothing,
    /// A tick, and a turn with the reminders.
    Turns,
    /// A tick two hours later.
    LateTick,
}

// Serves a session over this connection, and appends how it ends and what it writes.
fn serve<R: Wait>(
    desk: &mut Desk<'_, R, MemLinks, MemClock>,
    side: Side,
    conn: &mut MemConn,
    text: &mut String,
) -> Option<()>
    requires { IsSeatsOf desk.old.node.now desk.old.seats }
    ensures { IsSeatsOf desk.new.node.now desk.new.seats }
{
    let end = sidecar_session(desk, side, conn);
    add(format!(in desk.alloc; "{end:?}|").ok()?.as_str(), text)?;
    add_escaped(desk.alloc, conn.written(), text)
}

// The same of the second caller, if there is one.
fn serve_second<R: Wait>(
    desk: &mut Desk<'_, R, MemLinks, MemClock>,
    side: Side,
    caller: &str,
    text: &mut String,
) -> Option<()>
    requires { IsSeatsOf desk.old.node.now desk.old.seats }
    ensures { IsSeatsOf desk.new.node.now desk.new.seats }
{
    if caller.is_empty() {
        return Some(());
    }
    let mut conn = conn(desk.alloc, caller)?;
    add("|", text)?;
    serve(desk, side, &mut conn, text)
}

// Serves the sessions of one or two callers, one after the other.
fn serve_callers<R: Wait>(
    desk: &mut Desk<'_, R, MemLinks, MemClock>,
    side: Side,
    callers: &str,
    text: &mut String,
) -> Option<()>
    requires { IsSeatsOf desk.old.node.now desk.old.seats }
    ensures { IsSeatsOf desk.new.node.now desk.new.seats }
{
    let (first, second) = cut(callers, ';');
    let mut conn = conn(desk.alloc, first)?;
    serve(desk, side, &mut conn, text)?;
    serve_second(desk, side, second, text)
}

/// The sessions of callers or of other sidecars, with links that answer so, and what follows them.
pub(crate) fn sessions<R: Wait>(
    rt: &R,
    alloc: Global,
    side: Side,
    case: &str,
    then: Then,
    text: &mut String,
) -> Option<()> {
    let (callers, rest) = cut(case, '|');
    let (app, rest) = cut(rest, '|');
    let (store, peer) = cut(rest, '|');
    let has_peer = !peer.is_empty();
    let links = links_of(alloc, app, store, peer)?;
    let clock = clock(alloc)?;
    let (node, seats) = open_node(rt, alloc, has_peer)?;
    let mut desk = Desk {
        rt,
        alloc,
        node: &node,
        seats,
        links,
        clock,
    };
    serve_callers(&mut desk, side, callers, text)?;
    match then {
        Then::Nothing => {}
        Then::Turns => add_turns(&mut desk, text)?,
        Then::LateTick => {
            desk.clock = later_clock(alloc)?;
            add_tick(&mut desk, text)?;
        }
    }
    add_links(alloc, &desk.links, has_peer, text)
}

// How a tick ends.
fn add_tick<R: Wait>(desk: &mut Desk<'_, R, MemLinks, MemClock>, text: &mut String) -> Option<()>
    requires { IsSeatsOf desk.old.node.now desk.old.seats }
    ensures { IsSeatsOf desk.new.node.now desk.new.seats }
{
    let ticked = tick_turn(desk);
    add(format!(in desk.alloc; "|{ticked:?}").ok()?.as_str(), text)
}

// How a tick ends, and then a turn with the reminders.
fn add_turns<R: Wait>(desk: &mut Desk<'_, R, MemLinks, MemClock>, text: &mut String) -> Option<()>
    requires { IsSeatsOf desk.old.node.now desk.old.seats }
{
    add_tick(desk, text)?;
    let ended = reminder_turn(desk);
    add(format!(in desk.alloc; "|{ended:?}").ok()?.as_str(), text)
}

// Whether a session over these bytes ends as one that were cut, without a response.
fn is_cut<R: Wait>(rt: &R, alloc: Global, bytes: &[u8]) -> Option<bool> {
    let links = links_of(alloc, "", "", "")?;
    let clock = clock(alloc)?;
    let mut text = String::new(alloc);
    let mut conn = conn_of(alloc, bytes)?;
    let (node, seats) = open_node(rt, alloc, false)?;
    let mut desk = Desk {
        rt,
        alloc,
        node: &node,
        seats,
        links,
        clock,
    };
    serve(&mut desk, Side::Caller, &mut conn, &mut text)?;
    Some(text.as_str() == "Malformed { requests: 0 }|")
}

/// At how many cuts of a request a session ends without a response, and how many there are.
pub(crate) fn cuts<R: Wait>(rt: &R, alloc: Global, bytes: &[u8], text: &mut String) -> Option<()> {
    let mut silent = 0usize;
    for n in 1..bytes.len() {
        let (front, _) = bytes.split_at_checked(n)?;
        if is_cut(rt, alloc, front)? {
            silent = silent.saturating_add(1);
        }
    }
    let all = bytes.len().saturating_sub(1);
    add(format!(in alloc; "{silent} of {all}").ok()?.as_str(), text)
}
