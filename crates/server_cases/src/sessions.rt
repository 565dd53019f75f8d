// Sessions over a connection in memory.
ghost use Rattle.std.specs.Prelude.{IfSome};
ghost use Rattle.step_gate.specs.Gates.{IsSeatOf};

use crate::frames::add_frames;
use crate::numbers::bytes_of;
use actor_ports::{MemClock, MemConn, SessionEnd};
use case_texts::add;
use std::alloc::Global;
use step_gate::{Gate, Machine, Seat};

/// A connection and the clock of a session.
#[derive(Drop)]
pub(crate) struct Link {
    pub(crate) conn: MemConn,
    pub(crate) clock: MemClock,
}

/// A connection with this input at a moment, whose call of this number is to fail: none if it is 0.
pub(crate) fn link_with(alloc: Global, now: u32, input: &[u8], failing: u64) -> Option<Link> {
    let conn = MemConn::new(alloc, input, &[failing]).ok()?;
    let clock = MemClock::new(alloc, now as u64, &[]).ok()?;
    Some(Link { conn, clock })
}

/// `MS BYTES CALL`, of which the last may be left out.
pub(crate) fn link_of(alloc: Global, rest: &str) -> Option<Link> {
    let (now, rest) = rest.split_once(' ')?;
    let (bytes, call) = match rest.split_once(' ') {
        Some(parts) => parts,
        None => (rest, "0"),
    };
    let input = bytes_of(alloc, bytes)?;
    let now = now.parse::<u32>().ok()?;
    link_with(alloc, now, input.as_slice(), call.parse::<u64>().ok()?)
}

/// A gate round a machine, and its first seat.
pub(crate) fn gate_of<M: Machine + Drop>(alloc: Global, machine: M) -> Option<(Gate<M>, Seat<M>)>
    ensures { IfSome result (λ made. IsSeatOf M.moves made.0 made.1) }
{
    match Gate::new(alloc, machine) {
        Ok(made) => Some(made),
        Err(_) => None,
    }
}

/// Appends how a session ended and a space.
pub(crate) fn add_end(alloc: Global, end: SessionEnd, text: &mut String) -> Option<()> {
    add(format!(in alloc; "{end:?} ").ok()?.as_str(), text)
}

/// Appends how a session of frames ended, and what it wrote.
pub(crate) fn add_told(
    alloc: Global,
    end: SessionEnd,
    written: &[u8],
    text: &mut String,
) -> Option<()> {
    add_end(alloc, end, text)?;
    add_frames(alloc, written, text)
}
