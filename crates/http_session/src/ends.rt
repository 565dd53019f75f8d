// How a session ends.
ghost use Rattle.std.specs.Prelude.{◌≡◌, ◌<◌, ◌≤◌, Option, IfOk};
ghost use Rattle.http_edge.specs.declared.message.HttpResponse.{HttpResponse};
ghost use Rattle.http_edge.specs.Requests.{EdgeCause};
ghost use Rattle.http_edge.specs.Texts.{WritesText};
ghost use Rattle.http_session.specs.Rounds.{refusal_text};
ghost use Rattle.http_session.specs.Sessions.{EndsUnread, cut_end, refused_end};

use crate::closing::write_sent;
use actor_ports::{Conn, SessionEnd};
use http_edge::{EdgeError, HttpResponse};
use lists_and_limits::OutOfMemory;
use std::alloc::Global;

// Writes the response to bytes that have no reading, if there is one and there was memory for it, and tells what came of it.
fn refuse<C: Conn>(
    alloc: Global,
    refusal: Result<Option<HttpResponse>, OutOfMemory>,
    conn: &mut C,
) -> Result<(), EdgeError>
    ensures writes { (said : Option HttpResponse) → IfOk refusal (λ r. r ≡ said)
        → WritesText (C.read_traffic conn.old) (C.read_traffic conn.new) (refusal_text said) result }
    ensures cause { EdgeCause (C.read_faults conn.old) (C.read_faults conn.new) result }
{
    match refusal {
        Err(_) => Err(EdgeError::OutOfMemory),
        Ok(None) => Ok(()),
        Ok(Some(response)) => write_sent(alloc, response, true, conn),
    }
}

// The end of a session at bytes that have no reading, after this came of the response to them.
fn refused_end(written: Result<(), EdgeError>, requests: u64) -> SessionEnd
    ensures { result ≡ refused_end written requests }
{
    match written {
        Err(EdgeError::OutOfMemory) => SessionEnd::OutOfMemory { requests },
        _ => SessionEnd::Malformed { requests },
    }
}

/// The end of a session whose reader answered an error. Bytes that have no reading get the response `refusal` first, if
/// there is one; if there is no memory for it, the session ends with that. `requests` is the number of requests whose
/// responses were written whole.
pub fn end_unread<C: Conn>(
    alloc: Global,
    error: EdgeError,
    refusal: Result<Option<HttpResponse>, OutOfMemory>,
    requests: u64,
    conn: &mut C,
) -> SessionEnd
    ensures ends { (said : Option HttpResponse) → IfOk refusal (λ r. r ≡ said)
        → EndsUnread said error requests (C.read_faults conn.old) (C.read_faults conn.new) (C.read_traffic conn.old) (C.read_traffic conn.new) result }
    ensures cause { C.read_faults conn.old ≤ C.read_faults conn.new }
{
    match error {
        EdgeError::ConnFault => SessionEnd::ConnFault { requests },
        EdgeError::OutOfMemory => SessionEnd::OutOfMemory { requests },
        _ => {
            let written = refuse(alloc, refusal, conn);
            refused_end(written, requests)
        }
    }
}

/// The end of a session in which an answer wasn't written whole.
pub fn cut_end(error: EdgeError, requests: u64) -> SessionEnd
    ensures { result ≡ cut_end error requests }
{
    match error {
        EdgeError::ConnFault => SessionEnd::ConnFault { requests },
        _ => SessionEnd::OutOfMemory { requests },
    }
}
