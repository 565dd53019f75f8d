// What is said about bytes that have no reading.
ghost use Rattle.std.specs.Prelude.{◌≡◌, IfOk};
ghost use Rattle.sidecar_requests.specs.Sessions.{edge_response};

use actors_api::{ApiReply, Side, edge_refusal, write_api};
use http_edge::{EdgeError, HttpResponse};
use lists_and_limits::OutOfMemory;
use std::alloc::Global;

/// The response to an error of the connection, if there is one.
pub(crate) fn edge_response(
    alloc: Global,
    side: Side,
    error: EdgeError,
) -> Result<Option<HttpResponse>, OutOfMemory>
    ensures { IfOk result (λ response. response ≡ edge_response side error) }
{
    match edge_refusal(error) {
        None => Ok(None),
        Some(refusal) => {
            let reply = ApiReply::Refused { refusal };
            let response = write_api(alloc, side, reply)?;
            Ok(Some(response))
        }
    }
}
