// HTTP messages over a connection in memory: requests and replies that are read, whole and cut, and messages that are
// written.
use crate::parts::{add_many, bytes, fields, one_field, shown};
use actor_ports::MemConn;
use case_texts::{add, add_escaped, escaped_bytes};
use http_edge::{
    Body, EdgeError, HttpField, HttpRequest, HttpResponse, RequestReader, exchange, write_response,
};
use std::alloc::Global;

// ` [NAME=VALUE;..] BODY`
fn add_message(alloc: Global, fields: &[HttpField], body: &[u8], text: &mut String) -> Option<()> {
    add(" [", text)?;
    for field in fields {
        add_escaped(alloc, field.name.as_slice(), text)?;
        add("=", text)?;
        add_escaped(alloc, field.value.as_slice(), text)?;
        add(";", text)?;
    }
    add("] ", text)?;
    add_escaped(alloc, body, text)
}

// `METHOD TARGET [NAME=VALUE;..] BODY`
fn request_text(alloc: Global, request: &HttpRequest) -> Option<String> {
    let mut text = shown(alloc, request.method.as_slice())?;
    add(" ", &mut text)?;
    add_escaped(alloc, request.target.as_slice(), &mut text)?;
    add_message(
        alloc,
        request.fields.as_slice(),
        request.body.as_slice(),
        &mut text,
    )?;
    if request.close {
        add(" close", &mut text)?;
    }
    Some(text)
}

// `STATUS [NAME=VALUE;..] BODY`
fn response_text(alloc: Global, response: &HttpResponse) -> Option<String> {
    let status = response.status;
    let mut text = format!(in alloc; "{status}").ok()?;
    add_message(
        alloc,
        response.fields.as_slice(),
        response.body.as_slice(),
        &mut text,
    )?;
    Some(text)
}

fn told(alloc: Global, answer: &Result<Option<HttpRequest>, EdgeError>) -> Option<String> {
    match answer {
        Ok(None) => String::from_str(alloc, "none").ok(),
        Ok(Some(request)) => request_text(alloc, request),
        Err(error) => format!(in alloc; "{error}").ok(),
    }
}

// What the first read of these bytes answers.
fn first(alloc: Global, input: &[u8]) -> Option<String> {
    let mut conn = MemConn::new(alloc, input, &[]).ok()?;
    let mut reader = RequestReader::new(alloc);
    told(alloc, &reader.read(&mut conn))
}

// The request of a call with this body.
fn call(alloc: Global, body: &str) -> Option<HttpRequest> {
    let method = bytes(alloc, "PUT")?;
    let target = bytes(alloc, "/actors/order/42/method/add")?;
    let list = "Host:127.0.0.1:3000,Dapr-Reentrancy-Id:n1.1.0.1,Connection:close";
    let fields = fields(alloc, list)?;
    let body = Body::from_slice(alloc, body.as_bytes()).ok()?;
    Some(HttpRequest {
        method,
        target,
        fields,
        body,
        close: true,
    })
}

// What an exchange answers to these bytes, if the calls of the connection with these numbers fail.
fn reply(alloc: Global, input: &[u8], failing: &[u64]) -> Option<String> {
    let mut conn = MemConn::new(alloc, input, failing).ok()?;
    match &exchange(alloc, &call(alloc, "")?, &mut conn) {
        Ok(response) => response_text(alloc, response),
        Err(error) => format!(in alloc; "{error}").ok(),
    }
}

/// What bytes are read as.
#[derive(Clone, Copy)]
pub(crate) enum Reading {
    Request,
    Reply,
}

fn read(alloc: Global, reading: Reading, input: &[u8]) -> Option<String> {
    match reading {
        Reading::Request => first(alloc, input),
        Reading::Reply => reply(alloc, input, &[]),
    }
}

// Whether the first `n` bytes are answered so, or as cut there; no bytes at all are no request.
fn is_cut(alloc: Global, reading: Reading, input: &[u8], n: usize, wanted: &str) -> Option<bool> {
    let (front, _) = input.split_at_checked(n)?;
    let answer = read(alloc, reading, front)?;
    let short = format!(in alloc; "cut short after {n} bytes").ok()?;
    match (reading, n) {
        (Reading::Request, 0) => Some(answer.as_str() == "none"),
        _ => Some(answer.as_str() == wanted || answer == short),
    }
}

/// What the bytes are read as, and at how many cuts that, or that they are cut.
pub(crate) fn at_every_cut(alloc: Global, reading: Reading, text: &str) -> Option<String> {
    let input = escaped_bytes(alloc, text)?;
    let input = input.as_slice();
    let whole = read(alloc, reading, input)?;
    let mut good = 0u64;
    for n in 0..input.len() {
        if is_cut(alloc, reading, input, n, whole.as_str())? {
            good = good.saturating_add(1);
        }
    }
    let all = input.len();
    format!(in alloc; "{whole}|{good} of {all}").ok()
}

/// What is answered to so many bytes that begin a head.
pub(crate) fn head(alloc: Global, text: &str) -> Option<String> {
    let mut input = Vec::new(alloc);
    add_many(b"a", text.parse::<u64>().ok()?, &mut input)?;
    first(alloc, input.as_slice())
}

/// What is answered to a head with so many fields.
pub(crate) fn head_of_fields(alloc: Global, text: &str) -> Option<String> {
    let mut input = Vec::from_slice(alloc, b"GET / HTTP/1.1\r\n").ok()?;
    add_many(b"A:\r\n", text.parse::<u64>().ok()?, &mut input)?;
    input.extend_from_slice(b"\r\n").ok()?;
    first(alloc, input.as_slice())
}

/// `COUNT BYTES`: what so many reads answer, if the calls of the connection with these numbers fail.
pub(crate) fn stream(alloc: Global, text: &str, failing: &[u64]) -> Option<String> {
    let (count, input) = text.split_once(' ')?;
    let input = escaped_bytes(alloc, input)?;
    let mut conn = MemConn::new(alloc, input.as_slice(), failing).ok()?;
    let mut reader = RequestReader::new(alloc);
    let mut answers = String::new(alloc);
    for _ in 0..count.parse::<u64>().ok()? {
        let answer = told(alloc, &reader.read(&mut conn))?;
        add(answer.as_str(), &mut answers)?;
        add("|", &mut answers)?;
    }
    Some(answers)
}

/// `CALL COUNT BYTES`
pub(crate) fn fault(alloc: Global, text: &str) -> Option<String> {
    let (call, rest) = text.split_once(' ')?;
    stream(alloc, rest, &[call.parse::<u64>().ok()?])
}

// `STATUS|NAME|VALUE|BODY`
fn response_of(alloc: Global, text: &str) -> Option<HttpResponse> {
    let (status, rest) = text.split_once('|')?;
    let (name, rest) = rest.split_once('|')?;
    let (value, body) = rest.split_once('|')?;
    let status = status.parse::<u16>().ok()?;
    let fields = one_field(alloc, name, value)?;
    let body = Body::from_slice(alloc, body.as_bytes()).ok()?;
    Some(HttpResponse {
        status,
        fields,
        body,
    })
}

/// What is written of a response.
pub(crate) fn written(alloc: Global, text: &str) -> Option<String> {
    let response = response_of(alloc, text)?;
    let mut conn = MemConn::new(alloc, b"", &[]).ok()?;
    write_response(alloc, &response, &mut conn).ok()?;
    shown(alloc, conn.written())
}

/// What the writing of a response answers, if this call of the connection fails.
pub(crate) fn unwritten(alloc: Global, text: &str) -> Option<String> {
    let response = response_of(alloc, "200|||")?;
    let failing = [text.parse::<u64>().ok()?];
    let mut conn = MemConn::new(alloc, b"", &failing).ok()?;
    let error = write_response(alloc, &response, &mut conn).err()?;
    format!(in alloc; "{error}").ok()
}

/// What an exchange answers to a reply that ends with the input.
pub(crate) fn ended(alloc: Global, text: &str) -> Option<String> {
    reply(alloc, escaped_bytes(alloc, text)?.as_slice(), &[])
}

/// `CALL BYTES`
pub(crate) fn broken(alloc: Global, text: &str) -> Option<String> {
    let (call, input) = text.split_once(' ')?;
    let input = escaped_bytes(alloc, input)?;
    let failing = [call.parse::<u64>().ok()?];
    reply(alloc, input.as_slice(), &failing)
}

/// `BODY|BYTES`: what an exchange of a call with this body writes, and the body of the reply.
pub(crate) fn exchanged(alloc: Global, text: &str) -> Option<String> {
    let (body, input) = text.split_once('|')?;
    let input = escaped_bytes(alloc, input)?;
    let mut conn = MemConn::new(alloc, input.as_slice(), &[]).ok()?;
    let response = exchange(alloc, &call(alloc, body)?, &mut conn).ok()?;
    let text = shown(alloc, conn.written())?;
    let body = shown(alloc, response.body.as_slice())?;
    format!(in alloc; "{text}|{body}").ok()
}
