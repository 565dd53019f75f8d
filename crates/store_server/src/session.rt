// One connection.
ghost use Rattle.group_gate.specs.Gates.{IsSeatOf};
ghost use Rattle.fence_rows.specs.Together.{AllowsAll};

use crate::frames::store_session;
use crate::pass::Pass;
use crate::service::StoreService;
use actor_ports::{Clock, Conn, Dial, SessionEnd};
use disk_model::Disk;
use frame_session::PlacedSeat;
use std::sync::Wait;

/// Serves a connection until it ends, at a place of the gate; if none is free, it is closed without an answer. The server
/// is over if the store has lost its disk.
pub(crate) fn serve_one<R: Wait, D: Disk + Drop + Send, C: Conn, K: Clock, N: Dial>(
    rt: &R,
    service: &StoreService<'_, D>,
    pass: Pass<D, K, N>,
    conn: C,
)
    requires { IsSeatOf AllowsAll service.now.gate.now pass.seat }
{
    let Pass {
        seat,
        clock,
        net,
        least: _,
    } = pass;
    let mut seat = seat;
    let Some(place) = service.gate.sit(&mut seat) else {
        return;
    };
    let placed = PlacedSeat { seat, place };
    let mut conn = conn;
    let mut clock = clock;
    let mut net = net;
    let (placed, end) = store_session(
        rt,
        service.alloc,
        service.gate,
        placed,
        &mut conn,
        &mut clock,
    );
    let PlacedSeat { seat, place } = placed;
    let mut seat = seat;
    service.gate.rise(&mut seat, place);
    if let SessionEnd::Broken { requests: _ } = end {
        service.lose_disk(&mut net);
    }
}
