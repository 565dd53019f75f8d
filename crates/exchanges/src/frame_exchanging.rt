// One exchange over a connection.
ghost use Rattle.std.specs.Prelude.{◌≡◌};
ghost use Rattle.http_edge.specs.Carry.{Carried, Over};
ghost use Rattle.exchanges.specs.FrameExchanges.{ExchangesFrame, EndCause};

use crate::frame_end::{FrameEnd, end_of};
use crate::reading::read_frame;
use actor_ports::Conn;
use frame_wire::Frame;
use http_edge::send;
use std::alloc::Global;

/// Writes a text, which is a frame's spelling, and reads one frame, and no byte behind it. A frame's fault is answered
/// as soon as it has come; if the input ends inside the frame, the place is its end.
pub fn exchange_frame<C: Conn>(alloc: Global, text: &[u8], conn: &mut C) -> Result<Frame, FrameEnd>
    ensures exchanges { (c : Carried) × Over (C.read_traffic conn.old) (C.read_traffic conn.new) c × ExchangesFrame text.now c (C.read_traffic conn.old) (C.read_traffic conn.new) result }
    ensures cause { EndCause (C.read_faults conn.old) (C.read_faults conn.new) result }
{
    match send(conn, text) {
        Err(error) => Err(end_of(error)),
        Ok(()) => read_frame(alloc, conn),
    }
}
