// Looks at the bytes of a request that have come so far.
ghost use Rattle.std.specs.Prelude.{◌≡◌, ◌≤◌, ◌==◌, ◌||◌, length, map, take, slice_range, IfOk};
ghost use Rattle.httparse.specs.Spans.{header_bytes, span_bytes, IsRequestOf, IsRequestWithin};
ghost use Rattle.http_edge.specs.Fields.{body_told, says_close, most_head};
ghost use Rattle.http_edge.specs.Requests.{pair_of};
ghost use Rattle.http_edge.specs.Steps.{Looks};

use crate::error::EdgeError;
use crate::fields::{body_length, copy_fields, says_close};
use crate::message::HttpFields;
use httparse::spans::{EMPTY_HEADER_SPAN, HeaderSpan, RequestSpans, parse_request};
use httparse::{Error, Status};
use lists_and_limits::{Bytes, OutOfMemory};
use std::alloc::Global;

const MOST_FIELDS: usize = 64;

// A whole head: its parts, how many bytes it has, and how many its body has.
#[derive(Drop)]
pub(crate) struct Head {
    pub(crate) method: Bytes,
    pub(crate) target: Bytes,
    pub(crate) fields: HttpFields,
    pub(crate) close: bool,
    pub(crate) len: usize,
    pub(crate) size: usize,
}

// Copies of the parts of a head.
fn copy_head(
    alloc: Global,
    bytes: &[u8],
    head: RequestSpans,
    spans: &[HeaderSpan],
    size: usize,
) -> Result<Head, OutOfMemory>
    requires within { IsRequestWithin bytes.now spans.now head }
    ensures method { IfOk result (λ h. h.method ≡ span_bytes bytes.now head.method) }
    ensures target { IfOk result (λ h. h.target ≡ span_bytes bytes.now head.path) }
    ensures fields { IfOk result (λ h. map pair_of h.fields ≡ map (header_bytes bytes.now) (take head.headers spans.now)) }
    ensures close { IfOk result (λ h. h.close ≡ (head.version == 0 || says_close (map (header_bytes bytes.now) (take head.headers spans.now)))) }
    ensures lengths { IfOk result (λ h. (h.len ≡ head.len) × (h.size ≡ size)) }
{
    let method = Bytes::from_slice(alloc, head.method.of(bytes))?;
    let target = Bytes::from_slice(alloc, head.path.of(bytes))?;
    let fields = copy_fields(alloc, bytes, &spans[..head.headers])?;
    let close = head.version == 0 || says_close(bytes, &spans[..head.headers]);
    Ok(Head {
        method,
        target,
        fields,
        close,
        len: head.len,
        size,
    })
}

// The whole head, or why its fields are refused.
fn take_head(
    alloc: Global,
    bytes: &[u8],
    head: RequestSpans,
    spans: &[HeaderSpan],
) -> Result<Option<Head>, EdgeError>
    requires within { IsRequestWithin bytes.now spans.now head }
    requires is { IsRequestOf bytes.now spans.now head }
    requires few { head.headers ≤ 64 }
    requires short { length bytes.now ≤ most_head }
    ensures { Looks bytes.now result }
{
    let size = match body_length(bytes, &spans[..head.headers]) {
        Ok(size) => size,
        Err(error) => return Err(error),
    };
    match copy_head(alloc, bytes, head, spans, size) {
        Ok(head) => Ok(Some(head)),
        Err(_) => Err(EdgeError::OutOfMemory),
    }
}

/// The head at the start of the bytes; `None` if more bytes are needed.
pub(crate) fn look_at_head(alloc: Global, bytes: &[u8]) -> Result<Option<Head>, EdgeError>
    requires { length bytes.now ≤ most_head }
    ensures { Looks bytes.now result }
{
    let mut spans = [EMPTY_HEADER_SPAN; MOST_FIELDS];
    match parse_request(bytes, &mut spans) {
        Ok(Status::Complete(head)) => take_head(alloc, bytes, head, &spans),
        Ok(Status::Partial) => Ok(None),
        Err(Error::TooManyHeaders) => Err(EdgeError::TooManyFields),
        Err(_) => Err(EdgeError::BadHead),
    }
}
