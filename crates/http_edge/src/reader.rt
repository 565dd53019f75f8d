// Requests read from a connection, one after the other.
ghost use Rattle.std.specs.Prelude.{◌≡◌, ◌≤◌, ◌<◌, ◌+◌, ◌++◌, Ok, Err, Some, None, [], length, take, drop, IfOk, IfSome, OnOk, vec_len};
ghost use Rattle.std.specs.Result.{result_err};
ghost use Rattle.http_edge.specs.Fields.{most_head};
ghost use Rattle.http_edge.specs.Inputs.{IsAnswerTo};
ghost use Rattle.http_edge.specs.Requests.{ReadsNext, EdgeCause, ReaderState, new_reader, pair_of};
ghost use Rattle.http_edge.specs.Steps.{IsHeadOf, AwaitsHead, FillsOver, EndsAt};

use crate::body::Body;
use crate::carry::receive;
use crate::error::{EdgeError, edge_error};
use crate::head::{Head, look_at_head};
use crate::message::HttpRequest;
use actor_ports::Conn;
use lists_and_limits::OutOfMemory;
use std::alloc::Global;
use std::marker::Model;
use std::mem;

const MOST_HEAD: usize = 16_384;

/// Reads the requests of a connection, and keeps the bytes behind each for the next one. It keeps at most 16,384
/// bytes, since it reads no more for a head, and for a body no more than the body has.
#[derive(Drop)]
pub struct RequestReader {
    alloc: Global,
    kept: Vec<u8>,
    failed: Option<EdgeError>,
}

impl Model for RequestReader {
    ghost use Rattle.std.specs.Prelude.{◌≤◌, vec_len};
    ghost use Rattle.http_edge.specs.Fields.{most_head};
    ghost use Rattle.http_edge.specs.Requests.{ReaderState};

    ghost Value = { ReaderState };

    ghost view = { λ a. record { kept = a.kept.items; failed = a.failed } };

    ghost invariant = { λ a. vec_len a.kept ≤ most_head };
}

impl RequestReader {
    /// A reader that has read nothing.
    pub fn new(alloc: Global) -> RequestReader
        ensures { result ≡ new_reader }
    {
        RequestReader {
            alloc,
            kept: Vec::new(alloc),
            failed: None,
        }
    }

    /// Reads the next request; `None` if the input ended before its first byte. Each call after an error answers that
    /// error again, and leaves the connection alone.
    pub fn read<C: Conn>(&mut self, conn: &mut C) -> Result<Option<HttpRequest>, EdgeError>
        ensures reads { self.old.failed ≡ None → ReadsNext self.old.kept self.new.kept (C.read_traffic conn.old) (C.read_traffic conn.new) result }
        ensures decides { self.old.failed ≡ None → IfSome (C.read_traffic conn.old) (λ t. IsAnswerTo (self.old.kept ++ t.left) result) }
        ensures cause { self.old.failed ≡ None → EdgeCause (C.read_faults conn.old) (C.read_faults conn.new) result }
        ensures failed { self.old.failed ≡ None → self.new.failed ≡ result_err result }
        ensures again { IfSome self.old.failed (λ error. (result ≡ Err error) × (self.new ≡ self.old) × (conn.new ≡ conn.old)) }
    {
        if let Some(error) = self.failed {
            return Err(error);
        }
        let result = read_next(self.alloc, &mut self.kept, conn);
        self.failed = error_of(&result);
        result
    }
}

// The error of an answer, if it has one.
fn error_of(answer: &Result<Option<HttpRequest>, EdgeError>) -> Option<EdgeError>
    ensures { result ≡ result_err answer.now }
{
    match answer {
        Ok(_) => None,
        Err(error) => Some(*error),
    }
}

// The answer if the input has ended with `kept` bytes left that aren't a request.
fn at_end(kept: usize) -> Result<Option<Head>, EdgeError>
    ensures { EndsAt kept result }
{
    if kept == 0 {
        return Ok(None);
    }
    Err(EdgeError::CutShort { n: kept as u64 })
}

// Reads until a head is whole. After each read it looks once at what is kept.
fn await_head<C: Conn>(
    alloc: Global,
    kept: &mut Vec<u8>,
    conn: &mut C,
) -> Result<Option<Head>, EdgeError>
    requires { vec_len kept.old ≤ most_head }
    ensures awaits { AwaitsHead kept.old.items kept.new.items (C.read_traffic conn.old) (C.read_traffic conn.new) result }
    ensures short { vec_len kept.new ≤ most_head }
    ensures cause { EdgeCause (C.read_faults conn.old) (C.read_faults conn.new) result }
{
    while kept.len() < MOST_HEAD {
        match look_at_head(alloc, kept.as_slice()) {
            Err(error) => return Err(error),
            Ok(Some(head)) => return Ok(Some(head)),
            Ok(None) => {}
        }
        let room = MOST_HEAD - kept.len();
        let count = match receive(conn, kept, room) {
            Err(error) => return Err(edge_error(error)),
            Ok(count) => count,
        };
        if count == 0 {
            return at_end(kept.len());
        }
    }
    match look_at_head(alloc, kept.as_slice()) {
        Err(error) => Err(error),
        Ok(Some(head)) => Ok(Some(head)),
        Ok(None) => Err(EdgeError::HeadTooLong),
    }
}

// Reads the rest of a body of `size` bytes. `len` bytes of its message came that aren't in the body.
pub(crate) fn read_rest<C: Conn>(
    conn: &mut C,
    body: &mut Vec<u8>,
    len: usize,
    size: usize,
) -> Result<(), EdgeError>
    requires within { vec_len body.old ≤ size }
    requires small { len + size < 18446744073709551616 }
    ensures fills { FillsOver len size body.old.items body.new.items (C.read_traffic conn.old) (C.read_traffic conn.new) result }
    ensures cause { EdgeCause (C.read_faults conn.old) (C.read_faults conn.new) result }
{
    while body.len() < size {
        let room = size - body.len();
        let count = match receive(conn, body, room) {
            Err(error) => return Err(edge_error(error)),
            Ok(count) => count,
        };
        if count == 0 {
            return Err(EdgeError::CutShort {
                n: (len + body.len()) as u64,
            });
        }
    }
    Ok(())
}

// The request of a head and the bytes of its message, the head's among them.
fn with_body(head: Head, bytes: Vec<u8>) -> HttpRequest
    requires { head.len ≤ vec_len bytes }
    ensures parts { (result.method ≡ head.method) × (result.target ≡ head.target) × (result.fields ≡ head.fields) × (result.close ≡ head.close) }
    ensures body { result.body ≡ drop head.len bytes.items }
{
    HttpRequest {
        method: head.method,
        target: head.target,
        fields: head.fields,
        body: Body::behind(head.len, bytes),
        close: head.close,
    }
}

// Takes the bytes of a message of `whole` bytes, as many as are kept; what is behind them stays kept.
fn split_message(alloc: Global, kept: &mut Vec<u8>, whole: usize) -> Result<Vec<u8>, OutOfMemory>
    ensures message { IfOk result (λ message. message.items ≡ take whole kept.old.items) }
    ensures rest { OnOk result (kept.new.items ≡ drop whole kept.old.items) }
    ensures short { vec_len kept.new ≤ vec_len kept.old }
{
    let have = whole.min(kept.len());
    let Ok(rest) = Vec::from_slice(alloc, &kept.as_slice()[have..]) else {
        return Err(OutOfMemory);
    };
    let mut message = mem::replace(kept, rest);
    message.truncate(have);
    if message.reserve(whole - have).is_err() {
        return Err(OutOfMemory);
    }
    Ok(message)
}

// Reads the request whose head is at the start of what is kept.
fn take_body<C: Conn>(
    alloc: Global,
    kept: &mut Vec<u8>,
    head: Head,
    conn: &mut C,
) -> Result<Option<HttpRequest>, EdgeError>
    requires head { IsHeadOf kept.old.items head }
    requires short { vec_len kept.old ≤ most_head }
    ensures takes { ReadsNext kept.old.items kept.new.items (C.read_traffic conn.old) (C.read_traffic conn.new) result }
    ensures short { vec_len kept.new ≤ most_head }
    ensures cause { EdgeCause (C.read_faults conn.old) (C.read_faults conn.new) result }
{
    let whole = head.len + head.size;
    let Ok(mut message) = split_message(alloc, kept, whole) else {
        return Err(EdgeError::OutOfMemory);
    };
    match read_rest(conn, &mut message, 0, whole) {
        Err(error) => Err(error),
        Ok(()) => Ok(Some(with_body(head, message))),
    }
}

fn read_next<C: Conn>(
    alloc: Global,
    kept: &mut Vec<u8>,
    conn: &mut C,
) -> Result<Option<HttpRequest>, EdgeError>
    requires { vec_len kept.old ≤ most_head }
    ensures reads { ReadsNext kept.old.items kept.new.items (C.read_traffic conn.old) (C.read_traffic conn.new) result }
    ensures short { vec_len kept.new ≤ most_head }
    ensures cause { EdgeCause (C.read_faults conn.old) (C.read_faults conn.new) result }
{
    match await_head(alloc, kept, conn) {
        Err(error) => Err(error),
        Ok(None) => Ok(None),
        Ok(Some(head)) => take_body(alloc, kept, head, conn),
    }
}
