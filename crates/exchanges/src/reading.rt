// One frame read from a connection, and no byte behind it.
ghost use Rattle.std.specs.Prelude.{◌≡◌, ◌<◌, ◌≤◌, ◌++◌, [], List, ℕ, length, vec_len, None, OnOk};
ghost use Rattle.actor_ports.specs.Port.{HasCause};
ghost use Rattle.http_edge.specs.Carry.{Over, AtEnd};
ghost use Rattle.frame_wire.specs.Streams.{look, end_look};
ghost use Rattle.exchanges.specs.FrameExchanges.{ReadsFrame, EndCause};

use crate::frame_end::{FrameEnd, end_of};
use crate::front::{Front, frame_len, look_front};
use actor_ports::{Conn, PortError};
use frame_wire::Frame;
use http_edge::receive;
use std::alloc::Global;

/// The most bytes of one read.
const PIECE: usize = 65_536;

// Reads until there are this many bytes, or the input ends.
fn fill<C: Conn>(conn: &mut C, bytes: &mut Vec<u8>, total: usize) -> Result<(), PortError>
    requires { vec_len bytes.old ≤ total }
    ensures over { (got : List ℕ) × (bytes.new.items ≡ bytes.old.items ++ got) × Over (C.read_traffic conn.old) (C.read_traffic conn.new) (record { read = got; written = [] }) }
    ensures most { length bytes.new.items ≤ total }
    ensures short { OnOk result (length bytes.new.items < total → AtEnd (C.read_traffic conn.old) (C.read_traffic conn.new)) }
    ensures cause { HasCause (C.read_faults conn.old) (C.read_faults conn.new) result }
{
    while bytes.len() < total {
        let most = (total - bytes.len()).min(PIECE);
        let count = match receive(conn, bytes, most) {
            Err(error) => return Err(error),
            Ok(count) => count,
        };
        if count == 0 {
            return Ok(());
        }
    }
    Ok(())
}

// Reads the rest of a frame of which five bytes have come.
fn read_rest<C: Conn>(alloc: Global, conn: &mut C, mut bytes: Vec<u8>) -> Result<Frame, FrameEnd>
    requires five { length bytes.items ≡ 5 }
    requires more { look 0 bytes.items ≡ end_look None }
    ensures reads { (got : List ℕ) × Over (C.read_traffic conn.old) (C.read_traffic conn.new) (record { read = got; written = [] }) × ReadsFrame (bytes.items ++ got) (C.read_traffic conn.old) (C.read_traffic conn.new) result }
    ensures cause { EndCause (C.read_faults conn.old) (C.read_faults conn.new) result }
{
    let total = frame_len(bytes.as_slice());
    match fill(conn, &mut bytes, total) {
        Err(error) => return Err(end_of(error)),
        Ok(()) => {}
    }
    let front = match look_front(alloc, bytes.as_slice()) {
        Err(_) => return Err(FrameEnd::OutOfMemory),
        Ok(front) => front,
    };
    match front {
        Front::Whole { frame } => Ok(frame),
        Front::Faulty { at } => Err(FrameEnd::NoFrame { at }),
        Front::More => Err(FrameEnd::NoFrame {
            at: bytes.len() as u64,
        }),
    }
}

/// Reads one frame, and no byte behind it.
pub(crate) fn read_frame<C: Conn>(alloc: Global, conn: &mut C) -> Result<Frame, FrameEnd>
    ensures reads { (read : List ℕ) × Over (C.read_traffic conn.old) (C.read_traffic conn.new) (record { read = read; written = [] }) × ReadsFrame read (C.read_traffic conn.old) (C.read_traffic conn.new) result }
    ensures cause { EndCause (C.read_faults conn.old) (C.read_faults conn.new) result }
{
    let mut bytes = Vec::new(alloc);
    match fill(conn, &mut bytes, 5) {
        Err(error) => return Err(end_of(error)),
        Ok(()) => {}
    }
    let front = match look_front(alloc, bytes.as_slice()) {
        Err(_) => return Err(FrameEnd::OutOfMemory),
        Ok(front) => front,
    };
    match front {
        Front::Whole { frame } => Ok(frame),
        Front::Faulty { at } => Err(FrameEnd::NoFrame { at }),
        Front::More => {
            if bytes.len() < 5 {
                return Err(FrameEnd::NoFrame {
                    at: bytes.len() as u64,
                });
            }
            read_rest(alloc, conn, bytes)
        }
    }
}
