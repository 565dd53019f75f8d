// One exchange over a connection.
ghost use Rattle.std.specs.Prelude.{◌≡◌, IfSome};
ghost use Rattle.http_edge.specs.Content.{ReadsReply};
ghost use Rattle.http_edge.specs.Exchanges.{Exchanges};
ghost use Rattle.http_edge.specs.Requests.{EdgeCause};
ghost use Rattle.http_edge.specs.Settled.{Decides};
ghost use Rattle.http_edge.specs.Texts.{request_text};

use crate::arrivals::Arrivals;
use crate::content::read_body;
use crate::error::EdgeError;
use crate::message::{HttpRequest, HttpResponse};
use crate::replies::await_reply;
use crate::writing::{write_request, write_text};
use actor_ports::Conn;
use std::alloc::Global;

// Reads a reply to its end.
fn read_reply<C: Conn>(alloc: Global, conn: &mut C) -> Result<HttpResponse, EdgeError>
    ensures reads { ReadsReply (C.read_traffic conn.old) (C.read_traffic conn.new) result }
    ensures cause { EdgeCause (C.read_faults conn.old) (C.read_faults conn.new) result }
{
    let mut arrivals = Arrivals::new(alloc);
    let head = match await_reply(alloc, &mut arrivals, conn) {
        Err(error) => return Err(error),
        Ok(head) => head,
    };
    arrivals.skip(head.len);
    match read_body(alloc, head.form, arrivals, conn) {
        Err(error) => Err(error),
        Ok(body) => Ok(HttpResponse {
            status: head.status,
            fields: head.fields,
            body,
        }),
    }
}

/// Writes one request and reads its reply to the end, however the bytes come.
///
/// The reply has the fields of its head, and a body of at most 4,194,304 bytes: as long as the head says, or its
/// chunks joined, or all up to the end of the input. The request's fields are written in their order, except
/// Content-Length and Transfer-Encoding, and then the length of its body; `close` is ignored. Bytes behind the reply
/// may have been read too, so a connection serves for one exchange.
pub fn exchange<C: Conn>(
    alloc: Global,
    request: &HttpRequest,
    conn: &mut C,
) -> Result<HttpResponse, EdgeError>
    ensures exchanges { Exchanges (request_text request.now) (C.read_traffic conn.old) (C.read_traffic conn.new) result }
    ensures decides { IfSome (C.read_traffic conn.old) (λ t. Decides t.left result) }
    ensures cause { EdgeCause (C.read_faults conn.old) (C.read_faults conn.new) result }
{
    if let Err(error) = write_request(alloc, request, conn) {
        return Err(error);
    }
    read_reply(alloc, conn)
}

/// Writes the text of a request, and reads its reply to the end as `exchange` does. The text isn't looked at.
pub fn exchange_text<C: Conn>(
    alloc: Global,
    text: &[u8],
    conn: &mut C,
) -> Result<HttpResponse, EdgeError>
    ensures exchanges { Exchanges text.now (C.read_traffic conn.old) (C.read_traffic conn.new) result }
    ensures decides { IfSome (C.read_traffic conn.old) (λ t. Decides t.left result) }
    ensures cause { EdgeCause (C.read_faults conn.old) (C.read_faults conn.new) result }
{
    if let Err(error) = write_text(text, conn) {
        return Err(error);
    }
    read_reply(alloc, conn)
}
