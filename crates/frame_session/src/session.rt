// A session: the frames of one connection, one after the other.
ghost use Rattle.std.specs.Prelude.{◌≡◌};
ghost use Rattle.frame_session.specs.Sessions.{IsSession, SessionCause};

use crate::answers::AnswersFrames;
use crate::asked::Askable;
use crate::ends::{cut_answer_end, cut_end, end_of_input};
use crate::fetch::{Fetched, fetch_piece};
use crate::turn::{Turn, take_turn};
use actor_ports::{Clock, Conn, SessionEnd};
use frame_wire::FrameReader;
use std::alloc::Global;
use std::sync::Wait;

/// Answers the frames of a connection until it ends. Each frame is asked once, at a moment of the clock, and its reply is
/// written before the next frame is taken. The frames before a fault are answered. `Broken` comes exactly if a reply breaks
/// the session off, whether or not it could be written. `requests` is the number of frames whose answers were written whole.
pub fn frame_session<R: Wait, G: Askable, A: AnswersFrames<G>, C: Conn, K: Clock>(
    rt: &R,
    alloc: Global,
    gate: &G,
    seat: G::Seat,
    conn: &mut C,
    clock: &mut K,
) -> (G::Seat, SessionEnd)
    requires { G.seats gate.now seat }
    ensures seat { G.seats gate.now result.0 }
    ensures session { IsSession G.made G.known A.event_of A.answer_of A.breaks_off seat result.0 (K.shown clock.old) (K.shown clock.new) (C.read_traffic conn.old) (C.read_traffic conn.new) result.1 }
    ensures cause { SessionCause (C.read_faults conn.old) (C.read_faults conn.new) result.1 }
{
    let mut seat = seat;
    let mut reader = FrameReader::new(alloc);
    let mut piece = Vec::new(alloc);
    let mut out = Vec::new(alloc);
    let mut faulty = false;
    let mut requests = 0u64;
    for _ in rt.forever() {
        match reader.next() {
            Some(frame) => match take_turn::<R, G, A, C, K>(
                rt, gate, &mut seat, frame, conn, clock, &mut out,
            ) {
                Turn::Answered { broken } => {
                    requests += 1;
                    if broken {
                        return (seat, SessionEnd::Broken { requests });
                    }
                }
                Turn::Cut { error, broken } => {
                    return (seat, cut_answer_end(error, broken, requests));
                }
                Turn::Foreign => return (seat, SessionEnd::Malformed { requests }),
                Turn::Spent { count } => return (seat, SessionEnd::Spent { requests, count }),
            },
            None => {
                if faulty {
                    return (seat, SessionEnd::Malformed { requests });
                }
                match fetch_piece(conn, &mut reader, &mut piece) {
                    Err(error) => return (seat, cut_end(error, requests)),
                    Ok(Fetched::Ended) => return (seat, end_of_input(reader, requests)),
                    Ok(Fetched::Faulty) => faulty = true,
                    Ok(Fetched::Fed) => {}
                }
            }
        }
    }
    unreachable!()
}
