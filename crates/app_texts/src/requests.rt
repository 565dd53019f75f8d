// A request that is put together from its parts.
ghost use Rattle.std.specs.Prelude.{◌≡◌, IfOk};
ghost use Rattle.http_edge.specs.Texts.{field_lines, request_text};
ghost use Rattle.app_texts.specs.Texts.{message};

use http_edge::{Body, Bytes, HttpFields, HttpRequest};
use lists_and_limits::OutOfMemory;
use std::alloc::Global;

// A request of these parts, the last of its connection.
#[tactic(auto, using(crate::proofs::Messages::request_text_of))]
pub(crate) fn request_of(
    alloc: Global,
    method: &[u8],
    target: Vec<u8>,
    fields: HttpFields,
    body: Body,
) -> Result<HttpRequest, OutOfMemory>
    ensures { IfOk result (λ q. request_text q ≡ message method.now target.items (field_lines fields) body) }
{
    let method = Bytes::from_slice(alloc, method)?;
    Ok(HttpRequest {
        method,
        target: Bytes::from_vec(target),
        fields,
        body,
        close: true,
    })
}
