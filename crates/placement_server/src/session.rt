// One connection: of frames, or of HTTP.
ghost use Rattle.step_gate.specs.Gates.{IsSeatOf};
ghost use Rattle.placement_node.specs.Node.{NodeAllows};

use crate::pass::Pass;
use crate::service::PlacementService;
use actor_ports::{Clock, Conn, Dial, SessionEnd};
use disk_model::Disk;
use placement_sessions::{placement_session, placement_state_session};
use std::alloc::Global;
use std::sync::Wait;

/// Serves a connection of frames until it ends. The server is over if the node has lost its disk.
pub(crate) fn serve_one<R: Wait, D: Disk + Drop + Send, C: Conn, K: Clock, N: Dial>(
    rt: &R,
    alloc: Global,
    service: &PlacementService<'_, D>,
    pass: Pass<D, K, N>,
    conn: C,
)
    requires { IsSeatOf NodeAllows service.now.gate.now pass.seat }
{
    let Pass {
        seat,
        clock,
        net,
        sight: _,
    } = pass;
    let mut conn = conn;
    let mut clock = clock;
    let mut net = net;
    let (_, end) = placement_session(rt, alloc, service.gate, seat, &mut conn, &mut clock);
    if let SessionEnd::Broken { requests: _ } = end {
        service.lose_disk(&mut net);
    }
}

/// Serves a connection of HTTP until it ends. The server is over if the node has lost its disk.
pub(crate) fn serve_state<R: Wait, D: Disk + Drop + Send, C: Conn, K: Clock, N: Dial>(
    rt: &R,
    alloc: Global,
    service: &PlacementService<'_, D>,
    pass: Pass<D, K, N>,
    conn: C,
)
    requires { IsSeatOf NodeAllows service.now.gate.now pass.seat }
{
    let Pass {
        seat,
        clock,
        net,
        sight: _,
    } = pass;
    let mut conn = conn;
    let mut clock = clock;
    let mut net = net;
    let (_, end) = placement_state_session(rt, alloc, service.gate, seat, &mut conn, &mut clock);
    if let SessionEnd::Broken { requests: _ } = end {
        service.lose_disk(&mut net);
    }
}
