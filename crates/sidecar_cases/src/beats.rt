// Turns with the placement.
ghost use Rattle.frame_wire.specs.declared.frame.Frame.TheVariants as frames;
ghost use Rattle.frame_wire.specs.Frames.{payload};
ghost use Rattle.sidecar_node.specs.Nodes.{host_of, IsSeatsOf};

use crate::links::conn_of;
use crate::node::{clock, new_node};
use actor_ports::MemConn;
use case_texts::{add, add_escaped};
use placement_beats::{PlacementBook, TurnEnd, leave_turn, placement_turn};
use sidecar_node::{Seats, SidecarNode};
use std::alloc::Global;
use std::sync::Wait;

fn add_end(alloc: Global, end: TurnEnd, text: &mut String) -> Option<()> {
    add(format!(in alloc; "{end:?}|").ok()?.as_str(), text)
}

// How a turn over this connection ends, and what was sent over it so far.
fn add_turn<R: Wait>(
    rt: &R,
    alloc: Global,
    node: &SidecarNode,
    seats: Seats,
    conn: &mut MemConn,
    text: &mut String,
) -> Option<()>
    requires seats { IsSeatsOf node.now seats }
    requires host { payload.Fits (frames.Register (host_of node.now)) }
{
    let mut clock = clock(alloc)?;
    let mut book = PlacementBook {
        acked: None,
        heard: 0,
    };
    let (_seats, end) = placement_turn(rt, alloc, node, seats, &mut book, conn, &mut clock);
    add_end(alloc, end, text)?;
    add_escaped(alloc, conn.written(), text)
}

/// How a turn of a new sidecar ends with a placement that answers so, and what it sent.
pub(crate) fn beat<R: Wait>(rt: &R, alloc: Global, from: &[u8], text: &mut String) -> Option<()> {
    let (node, seats) = new_node(rt, alloc)?;
    let mut conn = conn_of(alloc, from)?;
    add_turn(rt, alloc, &node, seats, &mut conn, text)
}

/// How the turn ends in which a new sidecar leaves a placement that answers so, how the next one ends, and what was sent.
pub(crate) fn leave<R: Wait>(rt: &R, alloc: Global, from: &[u8], text: &mut String) -> Option<()> {
    let (node, seats) = new_node(rt, alloc)?;
    let mut conn = conn_of(alloc, from)?;
    let (seats, end) = leave_turn(rt, alloc, &node, seats, &mut conn);
    add_end(alloc, end, text)?;
    add_turn(rt, alloc, &node, seats, &mut conn, text)
}
