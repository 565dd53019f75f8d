// Copies of responses.
ghost use Rattle.std.specs.Prelude.{◌≡◌, IfOk};

use actor_names::OutOfMemory;
use http_edge::{Body, Bytes, HttpField, HttpFields, HttpResponse};
use std::alloc::Global;

// A copy of a field.
fn copy_field(alloc: Global, field: &HttpField) -> Result<HttpField, OutOfMemory>
    ensures { IfOk result (λ copy. copy ≡ field.now) }
{
    let name = Bytes::from_slice(alloc, field.name.as_slice())?;
    let value = Bytes::from_slice(alloc, field.value.as_slice())?;
    Ok(HttpField { name, value })
}

// A copy of fields, in their order.
fn copy_fields(alloc: Global, fields: &[HttpField]) -> Result<Vec<HttpField>, OutOfMemory>
    ensures { IfOk result (λ copy. copy.items ≡ fields.now) }
{
    let mut copies = Vec::with_capacity(alloc, fields.len())?;
    for field in fields {
        copies.push(copy_field(alloc, field)?)?;
    }
    Ok(copies)
}

/// A copy of a response.
pub(crate) fn copy_response(
    alloc: Global,
    response: &HttpResponse,
) -> Result<HttpResponse, OutOfMemory>
    ensures { IfOk result (λ copy. copy ≡ response.now) }
{
    let fields = copy_fields(alloc, response.fields.as_slice())?;
    let body = Body::from_slice(alloc, response.body.as_slice())?;
    Ok(HttpResponse {
        status: response.status,
        fields: HttpFields::from_vec(fields),
        body,
    })
}
