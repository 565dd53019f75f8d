// Where the body of a reply ends.
ghost use Rattle.std.specs.Prelude.{◌≡◌, ◌≤◌, [], length, map, All, codes, IfOk};
ghost use Rattle.httparse.specs.Spans.{header_bytes, IsHeaderWithin};
ghost use Rattle.http_edge.specs.Fields.{values_of, most_body};
ghost use Rattle.http_edge.specs.Replies.{sized_form, coded_form, form_by, form_told, IsSmallForm};

use crate::error::EdgeError;
use crate::fields::{Told, check_length, find_value, is_same_word, read_length};
use httparse::spans::HeaderSpan;

// The form of a reply's body: a number of bytes, chunks, or all up to the end of the input.
#[derive(Clone, Copy)]
pub(crate) enum BodyForm {
    BySize(usize),
    ByChunks,
    ToEnd,
}

fn sized_form(size: Result<usize, EdgeError>) -> Result<BodyForm, EdgeError>
    requires { IfOk size (λ n. n ≤ most_body) }
    ensures is { result ≡ sized_form size }
    ensures small { IfOk result IsSmallForm }
{
    match size {
        Ok(n) => Ok(BodyForm::BySize(n)),
        Err(error) => Err(error),
    }
}

fn coded_form(coding: &[u8]) -> Result<BodyForm, EdgeError>
    ensures is { result ≡ coded_form coding.now }
    ensures small { IfOk result IsSmallForm }
{
    if is_same_word(coding, b"chunked") {
        return Ok(BodyForm::ByChunks);
    }
    Err(EdgeError::Chunked)
}

// The form without a Transfer-Encoding.
fn form_by_length(bytes: &[u8], spans: &[HeaderSpan]) -> Result<BodyForm, EdgeError>
    requires { All (IsHeaderWithin (length bytes.now)) spans.now }
    ensures small { IfOk result IsSmallForm }
    ensures is { result ≡ form_by [] (values_of (codes "Content-Length") (map (header_bytes bytes.now) spans.now)) }
{
    match find_value(bytes, spans, b"Content-Length") {
        Told::Absent => Ok(BodyForm::ToEnd),
        Told::Once(value) => sized_form(check_length(read_length(value.of(bytes)))),
        Told::Often => Err(EdgeError::BadLength),
    }
}

// The form of a reply's body by its status and fields.
pub(crate) fn body_form(
    status: u16,
    bytes: &[u8],
    spans: &[HeaderSpan],
) -> Result<BodyForm, EdgeError>
    requires { All (IsHeaderWithin (length bytes.now)) spans.now }
    ensures small { IfOk result IsSmallForm }
    ensures is { result ≡ form_told status (map (header_bytes bytes.now) spans.now) }
{
    if status == 204 || status == 304 {
        return Ok(BodyForm::BySize(0));
    }
    match find_value(bytes, spans, b"Transfer-Encoding") {
        Told::Absent => form_by_length(bytes, spans),
        Told::Once(value) => coded_form(value.of(bytes)),
        Told::Often => Err(EdgeError::Chunked),
    }
}
