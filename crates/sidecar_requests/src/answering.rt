// What is written about an answer.
ghost use Rattle.http_edge.specs.Requests.{EdgeCause};
ghost use Rattle.sidecar_requests.specs.Sessions.{Sends, IsSent};

use actor_ports::Conn;
use actors_api::{ApiReply, Side, write_api};
use http_edge::{EdgeError, HttpRequest, HttpResponse};
use http_session::write_sent;
use lists_and_limits::OutOfMemory;
use std::alloc::Global;

// What goes out of an answer. A response that is made already takes no memory.
fn response_of(alloc: Global, side: Side, answer: ApiReply) -> Result<HttpResponse, OutOfMemory>
    ensures { Sends side answer result }
{
    match answer {
        ApiReply::Made { response } => Ok(response),
        ApiReply::Unanswered => Err(OutOfMemory),
        other => write_api(alloc, side, other),
    }
}

/// Writes the response of the answer to a request.
pub(crate) fn write_answer<C: Conn>(
    alloc: Global,
    side: Side,
    request: &HttpRequest,
    answer: ApiReply,
    conn: &mut C,
) -> Result<(), EdgeError>
    ensures sent { IsSent side answer request.now (C.read_traffic conn.old) (C.read_traffic conn.new) result }
    ensures cause { EdgeCause (C.read_faults conn.old) (C.read_faults conn.new) result }
{
    match response_of(alloc, side, answer) {
        Err(_) => Err(EdgeError::OutOfMemory),
        Ok(response) => write_sent(alloc, response, request.close, conn),
    }
}
