// A session over HTTP: the state and the rounds of rooms.
ghost use Rattle.step_gate.specs.Gates.{IsSeatOf};
ghost use Rattle.frame_session.specs.Sessions.{SessionCause};
ghost use Rattle.placement_node.specs.Node.{NodeAllows};
ghost use Rattle.placement_sessions.specs.StateSessions.{IsStateSession};

use crate::state_turn::{StateTurn, answer_request, refuse};
use actor_ports::{Clock, Conn, SessionEnd};
use disk_model::Disk;
use frame_session::cut_end;
use http_edge::{EdgeError, RequestReader};
use placement_node::PlacementNode;
use std::alloc::Global;
use std::sync::Wait;
use step_gate::{Gate, Seat};

/// Answers the requests of a connection until it ends. `GET /placement/state` and `GET /placement/rounds`, also with the
/// query `space=S`, are one Look at the gate each, and are answered with the members of the room and with its round;
/// anything else is no route. The session ends after a request that closes its connection. Bytes that are no request are
/// refused, and the session ends. `requests` is the number of requests whose responses were written whole.
pub fn placement_state_session<R: Wait, D: Disk, C: Conn, K: Clock>(
    rt: &R,
    alloc: Global,
    gate: &Gate<PlacementNode<D>>,
    seat: Seat<PlacementNode<D>>,
    conn: &mut C,
    clock: &mut K,
) -> (Seat<PlacementNode<D>>, SessionEnd)
    requires { IsSeatOf NodeAllows gate.now seat }
    ensures seat { IsSeatOf NodeAllows gate.now result.0 }
    ensures session { IsStateSession seat result.0 (K.shown clock.old) (K.shown clock.new) (C.read_traffic conn.old) (C.read_traffic conn.new) result.1 }
    ensures cause { SessionCause (C.read_faults conn.old) (C.read_faults conn.new) result.1 }
{
    let mut seat = seat;
    let mut reader = RequestReader::new(alloc);
    for requests in 0..u64::MAX {
        let request = match reader.read(conn) {
            Ok(Some(request)) => request,
            Ok(None) => return (seat, SessionEnd::Done { requests }),
            Err(EdgeError::ConnFault) => return (seat, SessionEnd::ConnFault { requests }),
            Err(EdgeError::OutOfMemory) => return (seat, SessionEnd::OutOfMemory { requests }),
            Err(error) => {
                refuse(alloc, error, conn);
                return (seat, SessionEnd::Malformed { requests });
            }
        };
        let turn = answer_request(rt, alloc, gate, &mut seat, &request, conn, clock);
        drop(request);
        match turn {
            StateTurn::Answered { closes: false } => {}
            StateTurn::Answered { closes: true } => {
                let requests = requests + 1;
                return (seat, SessionEnd::Done { requests });
            }
            StateTurn::Cut { error } => return (seat, cut_end(error, requests)),
            StateTurn::Broken => return (seat, SessionEnd::Broken { requests }),
            StateTurn::Spent { count } => return (seat, SessionEnd::Spent { requests, count }),
        }
    }
    let requests = u64::MAX;
    (
        seat,
        SessionEnd::Spent {
            requests,
            count: requests,
        },
    )
}
