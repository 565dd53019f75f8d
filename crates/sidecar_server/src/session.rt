// One connection of a sidecar.
ghost use Rattle.sidecar_server.specs.Passes.{Admits};

use crate::clocked::look;
use crate::pass::Pass;
use crate::service::SidecarService;
use actor_ports::{Clock, Conn, Dial};
use actors_api::Side;
use sidecar_node::Desk;
use sidecar_requests::sidecar_session;
use std::sync::Wait;

/// Serves a connection of this port until it ends. First it looks whether the lease has ended: a sidecar that was held up
/// stops before it answers a connection that waited meanwhile.
pub(crate) fn serve_at<R: Wait, C: Conn, A: Dial, P: Dial, N: Dial, K: Clock>(
    rt: &R,
    service: &SidecarService<'_, N, K>,
    side: Side,
    pass: Pass<A, P, N, K>,
    conn: C,
)
    requires { Admits service.now.node.now service.now.watch.now pass.seats pass.watch }
{
    let pass = look(rt, service, pass);
    let Pass {
        seats,
        watch: _,
        links,
        net: _,
        clock,
        steady: _,
        book: _,
        link: _,
        is_second: _,
    } = pass;
    let mut conn = conn;
    let mut desk = Desk {
        rt,
        alloc: service.alloc,
        node: service.node,
        seats,
        links,
        clock,
    };
    let _ended = sidecar_session(&mut desk, side, &mut conn);
}
