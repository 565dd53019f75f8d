// What the fields of a head say: the length of its body, and whether the message is the last.
ghost use Rattle.std.specs.Prelude.{◌≡◌, ◌≤◌, length, map, take, All, IfOk};
ghost use Rattle.httparse.specs.Spans.{header_bytes, IsHeaderWithin};
ghost use Rattle.http_edge.specs.Fields.{is_same_word, values_of, length_of, at_most_body, most_body, body_told, says_close};
ghost use Rattle.http_edge.specs.Steps.{IsTold, option_span};
ghost use Rattle.http_edge.specs.Requests.{pair_of};

use crate::error::EdgeError;
use crate::message::{HttpField, HttpFields};
use httparse::spans::{HeaderSpan, Span};
use lists_and_limits::{Bytes, OutOfMemory};
use std::alloc::Global;

const MOST_BODY: u64 = 4_194_304;

// The value of a field that may occur only once.
#[derive(Clone, Copy)]
pub(crate) enum Told {
    Absent,
    Once(Span),
    Often,
}

// Whether two words are equal except for the case of ASCII letters.
pub(crate) fn is_same_word(a: &[u8], b: &[u8]) -> bool
    ensures { result ≡ is_same_word a.now b.now }
{
    a.eq_ignore_ascii_case(b)
}

// How often a field of this name occurs, and where its value is if it occurs once.
pub(crate) fn find_value(bytes: &[u8], spans: &[HeaderSpan], name: &[u8]) -> Told
    requires { All (IsHeaderWithin (length bytes.now)) spans.now }
    ensures { IsTold bytes.now (values_of name.now (map (header_bytes bytes.now) spans.now)) result }
{
    let mut found: Option<Span> = None;
    for span in spans {
        if is_same_word(span.name.of(bytes), name) {
            if found.is_some() {
                return Told::Often;
            }
            found = Some(span.value);
        }
    }
    match found {
        None => Told::Absent,
        Some(value) => Told::Once(value),
    }
}

// The number that 1 to 18 decimal digits spell; `None` for any other text.
pub(crate) fn read_length(text: &[u8]) -> Option<u64>
    ensures { result ≡ length_of text.now }
{
    if text.is_empty() || text.len() > 18 {
        return None;
    }
    let mut number = 0u64;
    for byte in text {
        if !byte.is_ascii_digit() || number >= 100_000_000_000_000_000 {
            return None;
        }
        number = number * 10 + (*byte - b'0') as u64;
    }
    Some(number)
}

// The length, if a body may have it: at most 4,194,304.
pub(crate) fn check_length(length: Option<u64>) -> Result<usize, EdgeError>
    ensures is { result ≡ at_most_body length }
    ensures small { IfOk result (λ n. n ≤ most_body) }
{
    match length {
        None => Err(EdgeError::BadLength),
        Some(n) => {
            if n > MOST_BODY {
                return Err(EdgeError::BodyTooLong { n });
            }
            Ok(n as usize)
        }
    }
}

// The length of a request's body.
pub(crate) fn body_length(bytes: &[u8], spans: &[HeaderSpan]) -> Result<usize, EdgeError>
    requires { All (IsHeaderWithin (length bytes.now)) spans.now }
    ensures { result ≡ body_told (map (header_bytes bytes.now) spans.now) }
{
    match find_value(bytes, spans, b"Transfer-Encoding") {
        Told::Absent => {}
        _ => return Err(EdgeError::Chunked),
    }
    match find_value(bytes, spans, b"Content-Length") {
        Told::Absent => Ok(0),
        Told::Once(value) => check_length(read_length(value.of(bytes))),
        Told::Often => Err(EdgeError::BadLength),
    }
}

// Whether a field says that the message is the last of its connection.
pub(crate) fn says_close(bytes: &[u8], spans: &[HeaderSpan]) -> bool
    requires { All (IsHeaderWithin (length bytes.now)) spans.now }
    ensures { result ≡ says_close (map (header_bytes bytes.now) spans.now) }
{
    for span in spans {
        if is_same_word(span.name.of(bytes), b"Connection")
            && is_same_word(span.value.of(bytes), b"close")
        {
            return true;
        }
    }
    false
}

// A copy of the field at a span.
fn copy_field(alloc: Global, bytes: &[u8], span: &HeaderSpan) -> Result<HttpField, OutOfMemory>
    requires { IsHeaderWithin (length bytes.now) span.now }
    ensures { IfOk result (λ field. pair_of field ≡ header_bytes bytes.now span.now) }
{
    let name = Bytes::from_slice(alloc, span.name.of(bytes))?;
    let value = Bytes::from_slice(alloc, span.value.of(bytes))?;
    Ok(HttpField { name, value })
}

// Copies of the fields at the spans.
pub(crate) fn copy_fields(
    alloc: Global,
    bytes: &[u8],
    spans: &[HeaderSpan],
) -> Result<HttpFields, OutOfMemory>
    requires { All (IsHeaderWithin (length bytes.now)) spans.now }
    ensures { IfOk result (λ fields. map pair_of fields ≡ map (header_bytes bytes.now) spans.now) }
{
    let mut fields = match Vec::with_capacity(alloc, spans.len()) {
        Ok(fields) => fields,
        Err(_) => return Err(OutOfMemory),
    };
    for span in spans {
        let field = copy_field(alloc, bytes, span)?;
        if fields.push(field).is_err() {
            return Err(OutOfMemory);
        }
    }
    Ok(HttpFields::from_vec(fields))
}
