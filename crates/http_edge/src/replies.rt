// The head of a reply: looking at its bytes, and reading until it is whole.
ghost use Rattle.std.specs.Prelude.{◌≡◌, ◌≤◌, ◌<◌, ◌+◌, length, map, take, slice_range, IfOk};
ghost use Rattle.httparse.specs.Spans.{header_bytes, IsResponseOf, IsResponseWithin};
ghost use Rattle.http_edge.specs.Arrivals.{LooksAtReply, AwaitsReply};
ghost use Rattle.http_edge.specs.Fields.{most_head};
ghost use Rattle.http_edge.specs.Replies.{form_told};
ghost use Rattle.http_edge.specs.Requests.{EdgeCause, pair_of};

use crate::arrivals::Arrivals;
use crate::error::EdgeError;
use crate::fields::copy_fields;
use crate::form::{BodyForm, body_form};
use crate::message::HttpFields;
use actor_ports::Conn;
use httparse::spans::{EMPTY_HEADER_SPAN, HeaderSpan, ResponseSpans, parse_response};
use httparse::{Error, Status};
use std::alloc::Global;

const MOST_FIELDS: usize = 64;

// A whole head: its status and fields, the form of the body behind it, and how many bytes it has.
#[derive(Drop)]
pub(crate) struct ReplyHead {
    pub(crate) status: u16,
    pub(crate) fields: HttpFields,
    pub(crate) form: BodyForm,
    pub(crate) len: usize,
}

// The whole head, or why it is refused.
fn take_reply(
    alloc: Global,
    bytes: &[u8],
    head: ResponseSpans,
    spans: &[HeaderSpan],
) -> Result<Option<ReplyHead>, EdgeError>
    requires within { IsResponseWithin bytes.now spans.now head }
    requires is { IsResponseOf bytes.now spans.now head }
    requires few { head.headers ≤ 64 }
    requires short { length bytes.now ≤ most_head }
    ensures { LooksAtReply bytes.now result }
{
    if head.code < 200 {
        return Err(EdgeError::BadHead);
    }
    let form = match body_form(head.code, bytes, &spans[..head.headers]) {
        Ok(form) => form,
        Err(error) => return Err(error),
    };
    match copy_fields(alloc, bytes, &spans[..head.headers]) {
        Ok(fields) => Ok(Some(ReplyHead {
            status: head.code,
            fields,
            form,
            len: head.len,
        })),
        Err(_) => Err(EdgeError::OutOfMemory),
    }
}

// The head at the start of the bytes; `None` if more bytes are needed.
fn look_at_reply(alloc: Global, bytes: &[u8]) -> Result<Option<ReplyHead>, EdgeError>
    requires { length bytes.now ≤ most_head }
    ensures { LooksAtReply bytes.now result }
{
    let mut spans = [EMPTY_HEADER_SPAN; MOST_FIELDS];
    match parse_response(bytes, &mut spans) {
        Ok(Status::Complete(head)) => take_reply(alloc, bytes, head, &spans),
        Ok(Status::Partial) => Ok(None),
        Err(Error::TooManyHeaders) => Err(EdgeError::TooManyFields),
        Err(_) => Err(EdgeError::BadHead),
    }
}

// Reads until the head of a reply is whole.
pub(crate) fn await_reply<C: Conn>(
    alloc: Global,
    arrivals: &mut Arrivals,
    conn: &mut C,
) -> Result<ReplyHead, EdgeError>
    requires small { arrivals.old.taken + most_head < 18446744073709551616 }
    ensures awaits { AwaitsReply arrivals.old arrivals.new (C.read_traffic conn.old) (C.read_traffic conn.new) result }
    ensures cause { EdgeCause (C.read_faults conn.old) (C.read_faults conn.new) result }
{
    'looks: loop {
        match look_at_reply(alloc, arrivals.rest()) {
            Err(error) => return Err(error),
            Ok(Some(head)) => return Ok(head),
            Ok(None) => {}
        }
        if let Err(error) = arrivals.fetch(conn) {
            return Err(error);
        }
    }
}
