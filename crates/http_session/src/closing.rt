// Responses as they are sent.
ghost use Rattle.std.specs.Prelude.{◌≡◌, ◌<◌, ◌≤◌, IfOk};
ghost use Rattle.http_edge.specs.Requests.{EdgeCause};
ghost use Rattle.http_edge.specs.Texts.{WritesText};
ghost use Rattle.http_session.specs.Rounds.{close_field, sent, answer_text};

use actor_ports::Conn;
use http_edge::{Bytes, EdgeError, HttpField, HttpFields, HttpResponse, write_response};
use lists_and_limits::OutOfMemory;
use std::alloc::Global;

fn close_field(alloc: Global) -> Result<HttpField, OutOfMemory>
    ensures { IfOk result (λ field. field ≡ close_field) }
{
    Ok(HttpField {
        name: Bytes::from_slice(alloc, b"Connection")?,
        value: Bytes::from_slice(alloc, b"close")?,
    })
}

// The response as it is sent; the last one of its connection says so.
fn sent(alloc: Global, response: HttpResponse, last: bool) -> Result<HttpResponse, OutOfMemory>
    ensures { IfOk result (λ r. r ≡ sent last response) }
{
    if !last {
        return Ok(response);
    }
    let HttpResponse {
        status,
        fields,
        body,
    } = response;
    let mut fields = fields.into_vec();
    fields.push(close_field(alloc)?)?;
    Ok(HttpResponse {
        status,
        fields: HttpFields::from_vec(fields),
        body,
    })
}

/// Writes a response, with `Connection: close` if it is the last one.
pub fn write_sent<C: Conn>(
    alloc: Global,
    response: HttpResponse,
    last: bool,
    conn: &mut C,
) -> Result<(), EdgeError>
    ensures writes { WritesText (C.read_traffic conn.old) (C.read_traffic conn.new) (answer_text last response) result }
    ensures cause { EdgeCause (C.read_faults conn.old) (C.read_faults conn.new) result }
{
    match sent(alloc, response, last) {
        Err(_) => Err(EdgeError::OutOfMemory),
        Ok(response) => write_response(alloc, &response, conn),
    }
}
