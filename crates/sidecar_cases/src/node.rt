// The sidecar of the cases: `n1` of boot 1, with one part.
ghost use Rattle.std.specs.Prelude.{IfSome};
ghost use Rattle.frame_wire.specs.declared.frame.Frame.TheVariants as frames;
ghost use Rattle.frame_wire.specs.Frames.{payload};
ghost use Rattle.sidecar_node.specs.Nodes.{host_of, IsSeatsOf};

use crate::links::{conn_of, dialler};
use actor_names::{Address, default_space, read_address, read_app_id, read_node};
use actor_ports::MemClock;
use placement_beats::{PlacementBook, placement_turn};
use sidecar_node::{Seats, SidecarNode};
use sidecar_start::{StartWords, Started, start};
use std::alloc::Global;
use std::sync::Wait;

// What the store and the application answer at the start: the boot 1, and the configuration.
const START: &str =
    "\\x00\\x00\\x00\\x090\\x00\\x00\\x00\\x00\\x00\\x00\\x00\\x01;HTTP/1.1 200 OK\\r\\nContent-Length: 52\\r\\n\\r\\n{\"entities\":[\"order\"],\"reentrancy\":{\"enabled\":true}}";

// Lock 1, Update 1 with the sidecar as the only host, and Unlock 1.
const ROUND: &[u8] =
    b"\x00\x00\x00\x09\x10\x00\x00\x00\x00\x00\x00\x00\x01\x00\x00\x00\x30\x11\x00\x00\x00\x00\x00\x00\x00\x01\x00\x01\x07default\x02n1\x00\x00\x00\x00\x00\x00\x00\x01\x04shop\x7f\x00\x00\x01\x0d\xad\x01\x05order\x00\x00\x00\x09\x12\x00\x00\x00\x00\x00\x00\x00\x01";

// The same with the sidecar and `n2/2`, which listens at 127.0.0.1:3502.
const ROUND_OF_TWO: &[u8] =
    b"\x00\x00\x00\x09\x10\x00\x00\x00\x00\x00\x00\x00\x01\x00\x00\x00\x55\x11\x00\x00\x00\x00\x00\x00\x00\x01\x00\x02\x07default\x02n1\x00\x00\x00\x00\x00\x00\x00\x01\x04shop\x7f\x00\x00\x01\x0d\xad\x01\x05order\x07default\x02n2\x00\x00\x00\x00\x00\x00\x00\x02\x04shop\x7f\x00\x00\x01\x0d\xae\x01\x05order\x00\x00\x00\x09\x12\x00\x00\x00\x00\x00\x00\x00\x01";

pub(crate) fn address(text: &[u8]) -> Option<Address> {
    read_address(text).ok()
}

// A clock that shows 1970-01-01T00:00:00Z.
pub(crate) fn clock(alloc: Global) -> Option<MemClock> {
    MemClock::new(alloc, 0, &[]).ok()
}

/// A clock that shows two hours later: an actor is idle after one.
pub(crate) fn later_clock(alloc: Global) -> Option<MemClock> {
    MemClock::new(alloc, 7_200_000, &[]).ok()
}

fn start_words(alloc: Global) -> Option<StartWords> {
    Some(StartWords {
        space: default_space(),
        node: read_node(b"n1").ok()?,
        app: read_app_id(alloc, b"shop").ok()?,
        app_at: address(b"127.0.0.1:3000")?,
        peer_at: address(b"127.0.0.1:3501")?,
        store_at: address(b"127.0.0.1:3700")?,
    })
}

/// The sidecar as it has started: its part isn't open.
pub(crate) fn new_node<R: Wait>(rt: &R, alloc: Global) -> Option<(SidecarNode, Seats)>
    ensures seats { IfSome result (λ r. IsSeatsOf r.0 r.1) }
    ensures host { IfSome result (λ r. payload.Fits (frames.Register (host_of r.0))) }
{
    let words = start_words(alloc)?;
    let mut net = dialler(alloc, START)?;
    let mut clock = clock(alloc)?;
    let Started { host, kinds } = match start(rt, alloc, &mut net, &mut clock, &words) {
        Ok(started) => started,
        Err(_) => return None,
    };
    let (node, seats) = match SidecarNode::new(alloc, host, kinds, 1) {
        Ok(made) => made,
        Err(_) => return None,
    };
    Some((node, seats))
}

// Opens the part, by this round in three turns with the placement.
fn open<R: Wait>(
    rt: &R,
    alloc: Global,
    node: &SidecarNode,
    seats: Seats,
    round: &[u8],
) -> Option<Seats>
    requires seats { IsSeatsOf node.now seats }
    requires host { payload.Fits (frames.Register (host_of node.now)) }
    ensures { IfSome result (λ seats. IsSeatsOf node.now seats) }
{
    let mut conn = conn_of(alloc, round)?;
    let mut clock = clock(alloc)?;
    let mut book = PlacementBook {
        acked: None,
        heard: 0,
    };
    let (seats, _) = placement_turn(rt, alloc, node, seats, &mut book, &mut conn, &mut clock);
    let (seats, _) = placement_turn(rt, alloc, node, seats, &mut book, &mut conn, &mut clock);
    let (seats, _) = placement_turn(rt, alloc, node, seats, &mut book, &mut conn, &mut clock);
    Some(seats)
}

/// The sidecar with its part open, at version 1. It is the only host, or has another one beside it.
pub(crate) fn open_node<R: Wait>(
    rt: &R,
    alloc: Global,
    has_peer: bool,
) -> Option<(SidecarNode, Seats)>
    ensures { IfSome result (λ r. IsSeatsOf r.0 r.1) }
{
    let (node, seats) = new_node(rt, alloc)?;
    let round = if has_peer { ROUND_OF_TWO } else { ROUND };
    let seats = open(rt, alloc, &node, seats, round)?;
    Some((node, seats))
}
