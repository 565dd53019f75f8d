// A placement in memory.
ghost use Rattle.step_gate.specs.Gates.{IsSeatOf};
ghost use Rattle.placement_node.specs.Node.{NodeAllows};
ghost use Rattle.placement_node.specs.Ranges.{ReplyFits};

use crate::frames::add_frames;
use crate::sessions::{Link, add_end, add_told, gate_of, link_of, link_with};
use crate::subject::{Disks, Subject};
use actor_ports::SessionEnd;
use case_texts::{add, cut, escaped_bytes};
use disk_model::MemDisk;
use frame_wire::write_frame;
use placement_node::{NodeReply, PlacementNode, PlacementOpenError, RoomSeen};
use placement_sessions::{placement_session, placement_state_session};
use round_core::PlaceEvent;
use std::alloc::Global;
use std::sync::Wait;
use step_gate::{Gate, Seat};

/// A placement in memory.
pub(crate) type Placement = PlacementNode<MemDisk>;

// The placement behind this gate after a session of frames, and how the session ended.
fn served<R: Wait>(
    rt: &R,
    alloc: Global,
    gate: Gate<Placement>,
    seat: Seat<Placement>,
    link: &mut Link,
) -> (Placement, SessionEnd)
    requires { IsSeatOf NodeAllows gate seat }
{
    let (seat, end) = placement_session(rt, alloc, &gate, seat, &mut link.conn, &mut link.clock);
    (gate.close(rt, seat), end)
}

// The same after a session over HTTP.
fn state_served<R: Wait>(
    rt: &R,
    alloc: Global,
    gate: Gate<Placement>,
    seat: Seat<Placement>,
    link: &mut Link,
) -> (Placement, SessionEnd)
    requires { IsSeatOf NodeAllows gate seat }
{
    let (seat, end) = placement_state_session(
        rt,
        alloc,
        &gate,
        seat,
        &mut link.conn,
        &mut link.clock,
    );
    (gate.close(rt, seat), end)
}

// `at MS BYTES CALL`
fn at<R: Wait>(
    rt: &R,
    alloc: Global,
    kept: &mut Option<Placement>,
    rest: &str,
    text: &mut String,
) -> Option<()> {
    let mut link = link_of(alloc, rest)?;
    let (gate, seat) = gate_of(alloc, kept.take()?)?;
    let (node, end) = served(rt, alloc, gate, seat, &mut link);
    *kept = Some(node);
    add_told(alloc, end, link.conn.written(), text)
}

// Appends the lines of a text, each with `|` at its end.
fn add_lines(bytes: &[u8], text: &mut String) -> Option<()> {
    for byte in bytes {
        match *byte {
            b'\r' => text.push('|').ok()?,
            b'\n' => {}
            byte => text.push(byte as char).ok()?,
        }
    }
    Some(())
}

// `http TEXT`
fn http<R: Wait>(
    rt: &R,
    alloc: Global,
    kept: &mut Option<Placement>,
    rest: &str,
    text: &mut String,
) -> Option<()> {
    let input = escaped_bytes(alloc, rest)?;
    let mut link = link_with(alloc, 2_000, input.as_slice(), 0)?;
    let (gate, seat) = gate_of(alloc, kept.take()?)?;
    let (node, end) = state_served(rt, alloc, gate, seat, &mut link);
    *kept = Some(node);
    add_end(alloc, end, text)?;
    add_lines(link.conn.written(), text)
}

// Appends a room: its space, the last version and the number of its members.
fn add_room(alloc: Global, room: &RoomSeen, text: &mut String) -> Option<()> {
    for byte in room.space.as_slice() {
        text.push(*byte as char).ok()?;
    }
    let (version, members) = (room.version, room.members.as_slice().len());
    add(
        format!(in alloc; " {version} {members},").ok()?.as_str(),
        text,
    )
}

// Appends the rooms behind their number.
fn add_rooms(alloc: Global, rooms: &[RoomSeen], text: &mut String) -> Option<()> {
    let count = rooms.len();
    add(format!(in alloc; "{count} rooms: ").ok()?.as_str(), text)?;
    for room in rooms {
        add_room(alloc, room, text)?;
    }
    Some(())
}

// Appends a reply.
fn add_reply(alloc: Global, reply: NodeReply, text: &mut String) -> Option<()>
    requires { ReplyFits reply }
{
    match reply {
        NodeReply::Message { frame } => {
            let mut bytes = Vec::new(alloc);
            write_frame(&frame, &mut bytes).ok()?;
            add_frames(alloc, bytes.as_slice(), text)
        }
        NodeReply::Seen { rooms } => add_rooms(alloc, rooms.as_slice(), text),
        NodeReply::Ticked { dropped } => {
            add(format!(in alloc; "dropped {dropped}").ok()?.as_str(), text)
        }
    }
}

// `tick MS`
fn tick(alloc: Global, kept: &mut Option<Placement>, rest: &str, text: &mut String) -> Option<()> {
    let now = rest.parse::<u32>().ok()?;
    let reply = kept.as_mut()?.step(PlaceEvent::Tick, now as u64);
    add_reply(alloc, reply, text)
}

// `look`
fn look(alloc: Global, kept: &mut Option<Placement>, text: &mut String) -> Option<()> {
    let reply = kept.as_mut()?.step(PlaceEvent::Look, 2_000);
    add_reply(alloc, reply, text)
}

impl Subject for Placement {
    fn open(
        alloc: Global,
        disks: Disks,
        create: bool,
    ) -> Result<Placement, (PlacementOpenError, Disks)> {
        let Disks { first, second } = disks;
        match PlacementNode::open(alloc, first, create, 1_000) {
            Ok(node) => Ok(node),
            Err((error, first)) => Err((error, Disks { first, second })),
        }
    }

    fn close(self) -> Disks {
        let (first, second) = PlacementNode::close(self);
        Disks { first, second }
    }

    fn first(&self) -> &MemDisk {
        self.disk()
    }

    fn second(&self) -> Option<&MemDisk> {
        None
    }

    fn step<R: Wait>(
        rt: &R,
        alloc: Global,
        kept: &mut Option<Placement>,
        words: &str,
        text: &mut String,
    ) -> Option<()> {
        let (word, rest) = cut(words, ' ');
        match word {
            "at" => at(rt, alloc, kept, rest, text),
            "http" => http(rt, alloc, kept, rest, text),
            "tick" => tick(alloc, kept, rest, text),
            "look" => look(alloc, kept, text),
            _ => None,
        }
    }
}
