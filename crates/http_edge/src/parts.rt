// The parts of a body in chunks, and reading until one is whole.
ghost use Rattle.std.specs.Prelude.{◌≡◌, ◌≤◌, ◌<◌, ◌+◌, length};
ghost use Rattle.http_edge.specs.Arrivals.{LooksAtPart, AwaitsPart};
ghost use Rattle.http_edge.specs.Fields.{most_head};
ghost use Rattle.http_edge.specs.Requests.{EdgeCause};

use crate::arrivals::Arrivals;
use crate::error::EdgeError;
use actor_ports::Conn;
use httparse::spans::{EMPTY_HEADER_SPAN, parse_headers};
use httparse::{Error, Status, parse_chunk_size};

const MOST_FIELDS: usize = 64;

// A chunk line, the CR LF behind the bytes of a chunk, or the trailer part.
#[derive(Clone, Copy)]
pub(crate) enum Part {
    Line,
    DataEnd,
    Trailer,
}

// The length of a chunk line and the number in it; `None` if more bytes are needed.
fn look_at_line(bytes: &[u8]) -> Result<Option<(usize, u64)>, EdgeError>
    ensures { LooksAtPart Part.Line bytes.now result }
{
    match parse_chunk_size(bytes) {
        Ok(Status::Complete(found)) => Ok(Some(found)),
        Ok(Status::Partial) => Ok(None),
        Err(_) => Err(EdgeError::BadLength),
    }
}

// The same for CR LF.
fn look_at_end(bytes: &[u8]) -> Result<Option<(usize, u64)>, EdgeError>
    ensures { LooksAtPart Part.DataEnd bytes.now result }
{
    match bytes {
        [] | [b'\r'] => Ok(None),
        [b'\r', b'\n', ..] => Ok(Some((2, 0))),
        _ => Err(EdgeError::BadLength),
    }
}

// The same for a trailer part.
fn look_at_trailer(bytes: &[u8]) -> Result<Option<(usize, u64)>, EdgeError>
    ensures { LooksAtPart Part.Trailer bytes.now result }
{
    let mut spans = [EMPTY_HEADER_SPAN; MOST_FIELDS];
    match parse_headers(bytes, &mut spans) {
        Ok(Status::Complete((len, _))) => Ok(Some((len, 0))),
        Ok(Status::Partial) => Ok(None),
        Err(Error::TooManyHeaders) => Err(EdgeError::TooManyFields),
        Err(_) => Err(EdgeError::BadHead),
    }
}

fn look_at_part(part: Part, bytes: &[u8]) -> Result<Option<(usize, u64)>, EdgeError>
    ensures { LooksAtPart part bytes.now result }
{
    match part {
        Part::Line => look_at_line(bytes),
        Part::DataEnd => look_at_end(bytes),
        Part::Trailer => look_at_trailer(bytes),
    }
}

// Reads until a part is whole, takes it, and answers the number in it.
pub(crate) fn await_part<C: Conn>(
    part: Part,
    arrivals: &mut Arrivals,
    conn: &mut C,
) -> Result<u64, EdgeError>
    requires small { arrivals.old.taken + most_head < 18446744073709551616 }
    ensures awaits { AwaitsPart part arrivals.old arrivals.new (C.read_traffic conn.old) (C.read_traffic conn.new) result }
    ensures cause { EdgeCause (C.read_faults conn.old) (C.read_faults conn.new) result }
{
    'looks: loop {
        match look_at_part(part, arrivals.rest()) {
            Err(error) => return Err(error),
            Ok(Some((len, number))) => {
                arrivals.skip(len);
                return Ok(number);
            }
            Ok(None) => {}
        }
        if let Err(error) = arrivals.fetch(conn) {
            return Err(error);
        }
    }
}
