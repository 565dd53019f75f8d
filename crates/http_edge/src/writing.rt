// The texts of messages, and responses written to a connection.
ghost use Rattle.std.specs.Prelude.{◌≡◌, ◌++◌, IfErr, OnOk};
ghost use Rattle.http_edge.specs.Requests.{EdgeCause};
ghost use Rattle.http_edge.specs.Texts.{field_line, field_lines, sized, ending, phrase_of, status_start, status_line, is_framing, response_text, request_line, request_text, WritesText};

use crate::carry::send;
use crate::error::{EdgeError, edge_error};
use crate::fields::is_same_word;
use crate::message::{HttpField, HttpRequest, HttpResponse};
use actor_ports::Conn;
use http::StatusCode;
use itoa::Buffer;
use lists_and_limits::OutOfMemory;
use std::alloc::Global;

// Room for a status line, whose longest phrase has 31 bytes.
const MOST_STATUS_LINE: usize = 64;

fn add(bytes: &[u8], into: &mut Vec<u8>) -> Result<(), OutOfMemory>
    ensures { OnOk result (into.new.items ≡ into.old.items ++ bytes.now) }
{
    match into.extend_from_slice(bytes) {
        Ok(()) => Ok(()),
        Err(_) => Err(OutOfMemory),
    }
}

fn is_framing(name: &[u8]) -> bool
    ensures { result ≡ is_framing name.now }
{
    is_same_word(name, b"Content-Length") || is_same_word(name, b"Transfer-Encoding")
}

fn add_field(field: &HttpField, into: &mut Vec<u8>) -> Result<(), OutOfMemory>
    ensures { OnOk result (into.new.items ≡ into.old.items ++ field_line field.now) }
{
    add(field.name.as_slice(), into)?;
    add(b": ", into)?;
    add(field.value.as_slice(), into)?;
    add(b"\r\n", into)
}

fn add_fields(fields: &[HttpField], into: &mut Vec<u8>) -> Result<(), OutOfMemory>
    ensures { OnOk result (into.new.items ≡ into.old.items ++ field_lines fields.now) }
{
    for field in fields {
        if !is_framing(field.name.as_slice()) {
            add_field(field, into)?;
        }
    }
    Ok(())
}

fn add_sized(body: &[u8], into: &mut Vec<u8>) -> Result<(), OutOfMemory>
    ensures { OnOk result (into.new.items ≡ into.old.items ++ sized body.now) }
{
    let mut buffer = Buffer::new();
    add(b"Content-Length: ", into)?;
    add(buffer.format(body.len()).as_bytes(), into)?;
    add(b"\r\n\r\n", into)?;
    add(body, into)
}

fn add_phrase(status: u16, into: &mut Vec<u8>) -> Result<(), OutOfMemory>
    ensures { OnOk result (into.new.items ≡ into.old.items ++ phrase_of status) }
{
    let Ok(code) = StatusCode::from_u16(status) else {
        return Ok(());
    };
    match code.canonical_reason() {
        Some(phrase) => add(phrase.as_bytes(), into),
        None => Ok(()),
    }
}

// Appends what comes before the phrase of a status line.
fn add_start(status: u16, into: &mut Vec<u8>) -> Result<(), OutOfMemory>
    ensures { OnOk result (into.new.items ≡ into.old.items ++ status_start status) }
{
    let mut buffer = Buffer::new();
    add(b"HTTP/1.1 ", into)?;
    add(buffer.format(status).as_bytes(), into)?;
    add(b" ", into)
}

fn add_status(status: u16, into: &mut Vec<u8>) -> Result<(), OutOfMemory>
    ensures { OnOk result (into.new.items ≡ into.old.items ++ status_line status) }
{
    add_start(status, into)?;
    add_phrase(status, into)?;
    add(b"\r\n", into)
}

fn add_ending(status: u16, body: &[u8], into: &mut Vec<u8>) -> Result<(), OutOfMemory>
    ensures { OnOk result (into.new.items ≡ into.old.items ++ ending status body.now) }
{
    if status == 204 || status == 304 {
        return add(b"\r\n", into);
    }
    add_sized(body, into)
}

#[tactic(auto, unfolding(crate::specs::Texts::response_text))]
fn add_response(response: &HttpResponse, into: &mut Vec<u8>) -> Result<(), OutOfMemory>
    ensures { OnOk result (into.new.items ≡ into.old.items ++ response_text response.now) }
{
    add_status(response.status, into)?;
    add_fields(response.fields.as_slice(), into)?;
    add_ending(response.status, response.body.as_slice(), into)
}

fn add_request_line(method: &[u8], target: &[u8], into: &mut Vec<u8>) -> Result<(), OutOfMemory>
    ensures { OnOk result (into.new.items ≡ into.old.items ++ request_line method.now target.now) }
{
    add(method, into)?;
    add(b" ", into)?;
    add(target, into)?;
    add(b" HTTP/1.1\r\n", into)
}

fn add_request(request: &HttpRequest, into: &mut Vec<u8>) -> Result<(), OutOfMemory>
    ensures { OnOk result (into.new.items ≡ into.old.items ++ request_text request.now) }
{
    add_request_line(request.method.as_slice(), request.target.as_slice(), into)?;
    add_fields(request.fields.as_slice(), into)?;
    add_sized(request.body.as_slice(), into)
}

// Room for a message with these fields, whose first line has at most `first` bytes, and this body.
fn room_for(first: usize, fields: &[HttpField], body: &[u8]) -> usize {
    let mut room = first.saturating_add(body.len()).saturating_add(64);
    for field in fields {
        let line = field
            .name
            .as_slice()
            .len()
            .saturating_add(field.value.as_slice().len());
        room = room.saturating_add(line).saturating_add(4);
    }
    room
}

// Writes a text.
pub(crate) fn write_text<C: Conn>(text: &[u8], conn: &mut C) -> Result<(), EdgeError>
    ensures writes { WritesText (C.read_traffic conn.old) (C.read_traffic conn.new) text.now result }
    ensures cause { EdgeCause (C.read_faults conn.old) (C.read_faults conn.new) result }
{
    match send(conn, text) {
        Ok(()) => Ok(()),
        Err(error) => Err(edge_error(error)),
    }
}

// Writes a request.
pub(crate) fn write_request<C: Conn>(
    alloc: Global,
    request: &HttpRequest,
    conn: &mut C,
) -> Result<(), EdgeError>
    ensures writes { WritesText (C.read_traffic conn.old) (C.read_traffic conn.new) (request_text request.now) result }
    ensures cause { EdgeCause (C.read_faults conn.old) (C.read_faults conn.new) result }
{
    let mut text = Vec::new(alloc);
    if add_request(request, &mut text).is_err() {
        return Err(EdgeError::OutOfMemory);
    }
    write_text(text.as_slice(), conn)
}

/// Writes a response: its status line, its fields in their order except Content-Length and Transfer-Encoding, and
/// then, except for 204 and 304, the length of the body and the body. After `ConnFault` a prefix of its text was
/// written, after `OutOfMemory` nothing.
pub fn write_response<C: Conn>(
    alloc: Global,
    response: &HttpResponse,
    conn: &mut C,
) -> Result<(), EdgeError>
    ensures writes { WritesText (C.read_traffic conn.old) (C.read_traffic conn.new) (response_text response.now) result }
    ensures cause { EdgeCause (C.read_faults conn.old) (C.read_faults conn.new) result }
{
    let fields = response.fields.as_slice();
    let room = room_for(MOST_STATUS_LINE, fields, response.body.as_slice());
    let Ok(mut text) = Vec::with_capacity(alloc, room) else {
        return Err(EdgeError::OutOfMemory);
    };
    if add_response(response, &mut text).is_err() {
        return Err(EdgeError::OutOfMemory);
    }
    write_text(text.as_slice(), conn)
}
