// HTTP messages over a connection in memory.
//
//     serve COUNT     reads COUNT requests of a method call with a body of 200 bytes, and writes a response to each
//     route COUNT     the same, and each request is read as a command of the actors API before it is answered
//     copy COUNT      reads the bytes of as many requests in pieces and writes them back, without messages
//
// The count is how many requests or bytes there were.
use actor_names::default_space;
use actor_ports::{MemConn, Sink, Source};
use actors_api::{ApiCommand, ApiReply, Side, read_api, write_api};
use http_edge::{
    Bytes, HttpField, HttpFields, HttpRequest, HttpResponse, RequestReader, write_response,
};
use std::alloc::Global;

const HEAD: &[u8] =
    b"PUT /v1.0/actors/cart/42/method/add HTTP/1.1\r\nHost: 127.0.0.1:3500\r\nContent-Type: application/json\r\nContent-Length: 200\r\n\r\n";

const BODY: [u8; 200] = [b'7'; 200];

/// Does what `mode` says and answers the count; `None` if memory ran out, or if the words make no sense.
pub fn run(alloc: Global, mode: &str, count: &str) -> Option<u64> {
    let conn = connection(alloc, count.parse::<u64>().ok()?)?;
    match mode {
        "serve" => serve_all(alloc, conn, false),
        "route" => serve_all(alloc, conn, true),
        "copy" => copy_all(alloc, conn),
        _ => None,
    }
}

/// A connection over which so many requests come.
fn connection(alloc: Global, count: u64) -> Option<MemConn> {
    let mut text = Vec::new(alloc);
    for _ in 0..count {
        text.extend_from_slice(HEAD).ok()?;
        text.extend_from_slice(&BODY).ok()?;
    }
    MemConn::new(alloc, text.as_slice(), &[]).ok()
}

fn serve_all(alloc: Global, conn: MemConn, routes: bool) -> Option<u64> {
    let mut conn = conn;
    let mut reader = RequestReader::new(alloc);
    for served in 0..u64::MAX {
        match reader.read(&mut conn) {
            Ok(Some(request)) if routes => answer_routed(alloc, request, &mut conn)?,
            Ok(Some(request)) => answer(alloc, request, &mut conn)?,
            Ok(None) => return Some(served),
            Err(_) => return None,
        }
    }
    None
}

/// Writes a response that has the body of the request.
fn answer(alloc: Global, request: HttpRequest, conn: &mut MemConn) -> Option<()> {
    let response = HttpResponse {
        status: 200,
        fields: content_type(alloc)?,
        body: request.body,
    };
    write_response(alloc, &response, conn).ok()
}

/// Writes the response of an application that gives the request's body back, if the request is a call of a method.
fn answer_routed(alloc: Global, request: HttpRequest, conn: &mut MemConn) -> Option<()> {
    let Ok(ApiCommand::Invoke { .. }) = read_api(alloc, &default_space(), Side::Caller, &request, 0)
    else {
        return None;
    };
    let reply = HttpResponse {
        status: 200,
        fields: content_type(alloc)?,
        body: request.body,
    };
    let response = write_api(alloc, Side::Caller, ApiReply::Invoked { reply }).ok()?;
    write_response(alloc, &response, conn).ok()
}

fn content_type(alloc: Global) -> Option<HttpFields> {
    let name = Bytes::from_slice(alloc, b"Content-Type").ok()?;
    let value = Bytes::from_slice(alloc, b"application/json").ok()?;
    let mut fields = Vec::new(alloc);
    fields.push(HttpField { name, value }).ok()?;
    Some(HttpFields::from_vec(fields))
}

fn copy_all(alloc: Global, conn: MemConn) -> Option<u64> {
    let mut conn = conn;
    let mut piece = Vec::new(alloc);
    let mut done = 0u64;
    for _ in 0..u64::MAX {
        piece.clear();
        match conn.read(&mut piece, 16_384) {
            Ok(0) => return Some(done),
            Ok(got) => done = done.saturating_add(got as u64),
            Err(_) => return None,
        }
        conn.write(piece.as_slice()).ok()?;
    }
    None
}
