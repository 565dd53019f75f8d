// The next piece of a stream of frames.
ghost use Rattle.std.specs.Prelude.{◌≡◌, None};
ghost use Rattle.actor_ports.specs.Port.{HasCause};
ghost use Rattle.frame_session.specs.Turns.{Fetches};

use actor_ports::{Conn, PortError};
use frame_wire::{FrameError, FrameReader};
use http_edge::receive;

/// The most bytes of one read.
const PIECE: usize = 65_536;

/// What came of a read.
#[derive(Clone, Copy, Drop)]
pub enum Fetched {
    /// The reader has the next piece.
    Fed,
    /// The reader has the next piece, and there is a fault in it.
    Faulty,
    /// Nothing is left.
    Ended,
}

/// Reads the next piece and gives it to the reader.
pub fn fetch_piece<C: Conn>(
    conn: &mut C,
    reader: &mut FrameReader,
    piece: &mut Vec<u8>,
) -> Result<Fetched, PortError>
    requires { reader.old.failed ≡ None }
    ensures fetches { Fetches reader.old reader.new (C.read_traffic conn.old) (C.read_traffic conn.new) result }
    ensures cause { HasCause (C.read_faults conn.old) (C.read_faults conn.new) result }
{
    piece.clear();
    let count = match receive(conn, piece, PIECE) {
        Err(error) => return Err(error),
        Ok(count) => count,
    };
    if count == 0 {
        return Ok(Fetched::Ended);
    }
    match reader.feed(piece.as_slice()) {
        Ok(()) => Ok(Fetched::Fed),
        Err(FrameError::OutOfMemory) => Err(PortError::OutOfMemory),
        Err(_) => Ok(Fetched::Faulty),
    }
}
