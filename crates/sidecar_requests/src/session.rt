// A session of a sidecar over HTTP.
ghost use Rattle.std.specs.Prelude.{◌≡◌, ◌<◌, ◌≤◌};
ghost use Rattle.http_session.specs.Sessions.{SessionCause};
ghost use Rattle.sidecar_node.specs.Nodes.{IsSeatsOf};
ghost use Rattle.sidecar_requests.specs.Sessions.{standing, SessionDoes};

use crate::answering::write_answer;
use crate::edge::edge_response;
use crate::serving::serve_one;
use actor_ports::{Clock, Conn, Dial, SessionEnd};
use actors_api::Side;
use exchanges::Links;
use http_edge::RequestReader;
use http_session::{cut_end, end_unread};
use sidecar_node::Desk;
use std::sync::Wait;

// The most requests of a session.
const MOST_REQUESTS: u64 = 1 << 62;

/// Serves the requests of a connection that came on this port until it ends, each before the next one is read. A request
/// that asks to close is the last one; so are bytes that have no reading, about which a response is written if their error
/// has one. A request or such bytes for whose response there is no memory end the session without it. `requests` is the
/// number of requests whose responses were written whole; a session ends as `Spent` after 2^62 of them.
pub fn sidecar_session<R: Wait, C: Conn, A: Dial, P: Dial, S: Dial, K: Clock>(
    desk: &mut Desk<'_, R, Links<A, P, S>, K>,
    side: Side,
    conn: &mut C,
) -> SessionEnd
    requires { IsSeatsOf desk.old.node.now desk.old.seats }
    ensures node { desk.new.node.now ≡ desk.old.node.now }
    ensures seats { IsSeatsOf desk.old.node.now desk.new.seats }
    ensures session { SessionDoes side
        (standing A.dialled A.dial_faults P.dialled P.dial_faults S.dialled S.dial_faults K.shown desk.old.node.now desk.old.seats desk.old.links desk.old.clock)
        (standing A.dialled A.dial_faults P.dialled P.dial_faults S.dialled S.dial_faults K.shown desk.new.node.now desk.new.seats desk.new.links desk.new.clock)
        (C.read_traffic conn.old) (C.read_traffic conn.new) (C.read_faults conn.old) (C.read_faults conn.new) result }
    ensures places { (desk.new.links.app_at ≡ desk.old.links.app_at) × (desk.new.links.store_at ≡ desk.old.links.store_at) }
    ensures cause { SessionCause (C.read_faults conn.old) (C.read_faults conn.new) result }
{
    let mut reader = RequestReader::new(desk.alloc);
    for requests in 0..MOST_REQUESTS {
        match reader.read(conn) {
            Ok(None) => return SessionEnd::Done { requests },
            Err(error) => {
                let refusal = edge_response(desk.alloc, side, error);
                return end_unread(desk.alloc, error, refusal, requests, conn);
            }
            Ok(Some(request)) => {
                let answer = serve_one(desk, side, &request);
                let written = write_answer(desk.alloc, side, &request, answer, conn);
                match written {
                    Err(error) => return cut_end(error, requests),
                    Ok(()) => {
                        if request.close {
                            let requests = requests + 1;
                            return SessionEnd::Done { requests };
                        }
                    }
                }
            }
        }
    }
    SessionEnd::Spent {
        requests: MOST_REQUESTS,
        count: MOST_REQUESTS,
    }
}
