// The body of a reply.
ghost use Rattle.std.specs.Prelude.{◌≡◌, ◌≤◌, ◌+◌, ◌++◌, [], List, ℕ, length, take, min, IfOk, vec_len};
ghost use Rattle.http_edge.specs.Arrivals.{skipped};
ghost use Rattle.http_edge.specs.declared.form.BodyForm.TheVariants.{BySize, ByChunks, ToEnd};
ghost use Rattle.http_edge.specs.Content.{TakesData, ReadsData, ReadsChunk, ReadsBody};
ghost use Rattle.http_edge.specs.Fields.{most_head, most_body};
ghost use Rattle.http_edge.specs.Replies.{IsSmallForm};
ghost use Rattle.http_edge.specs.Requests.{EdgeCause};

use crate::arrivals::Arrivals;
use crate::body::Body;
use crate::carry::receive;
use crate::error::{EdgeError, edge_error};
use crate::form::BodyForm;
use crate::parts::{Part, await_part};
use crate::reader::read_rest;
use actor_ports::Conn;
use lists_and_limits::OutOfMemory;
use std::alloc::Global;

const MOST_BODY: usize = 4_194_304;

// Appends those of the next `size` bytes that have come, and answers how many.
fn take_front(
    arrivals: &mut Arrivals,
    body: &mut Vec<u8>,
    size: usize,
) -> Result<usize, OutOfMemory>
    requires taken { arrivals.old.taken ≤ 100000000000 }
    ensures count { IfOk result (λ have. have ≡ min size (length arrivals.old.rest)) }
    ensures bytes { IfOk result (λ have. body.new.items ≡ body.old.items ++ take have arrivals.old.rest) }
    ensures left { IfOk result (λ have. arrivals.new ≡ skipped have arrivals.old) }
{
    let have = size.min(arrivals.rest().len());
    if body.extend_from_slice(&arrivals.rest()[..have]).is_err() {
        return Err(OutOfMemory);
    }
    arrivals.skip(have);
    Ok(have)
}

// Appends the next `size` bytes of the body: those that have come, and then more as they come.
fn take_data<C: Conn>(
    arrivals: &mut Arrivals,
    conn: &mut C,
    body: &mut Vec<u8>,
    size: usize,
) -> Result<(), EdgeError>
    requires small { vec_len body.old + size ≤ most_body }
    requires counted { length body.old.items ≤ arrivals.old.taken }
    requires taken { arrivals.old.taken ≤ 100000000000 }
    ensures takes { TakesData size arrivals.old arrivals.new body.old.items body.new.items (C.read_traffic conn.old) (C.read_traffic conn.new) result }
    ensures cause { EdgeCause (C.read_faults conn.old) (C.read_faults conn.new) result }
{
    let Ok(have) = take_front(arrivals, body, size) else {
        return Err(EdgeError::OutOfMemory);
    };
    let whole = body.len() + (size - have);
    let others = arrivals.taken() as usize - body.len();
    match read_rest(conn, body, others, whole) {
        Err(error) => Err(error),
        Ok(()) => {
            arrivals.count(size - have);
            Ok(())
        }
    }
}

// Appends the bytes of a chunk, and takes the CR LF behind them.
fn read_data<C: Conn>(
    arrivals: &mut Arrivals,
    conn: &mut C,
    body: &mut Vec<u8>,
    size: u64,
) -> Result<(), EdgeError>
    requires small { vec_len body.old ≤ most_body }
    requires counted { length body.old.items ≤ arrivals.old.taken }
    requires taken { arrivals.old.taken ≤ 90000000000 }
    ensures reads { ReadsData size arrivals.old arrivals.new body.old.items body.new.items (C.read_traffic conn.old) (C.read_traffic conn.new) result }
    ensures cause { EdgeCause (C.read_faults conn.old) (C.read_faults conn.new) result }
{
    let have = body.len();
    if size > (MOST_BODY - have) as u64 {
        return Err(EdgeError::BodyTooLong {
            n: size.saturating_add(have as u64),
        });
    }
    match take_data(arrivals, conn, body, size as usize) {
        Err(error) => return Err(error),
        Ok(()) => {}
    }
    match await_part(Part::DataEnd, arrivals, conn) {
        Err(error) => Err(error),
        Ok(_) => Ok(()),
    }
}

// Reads a chunk and appends its bytes. It answers false if it was the last one, whose trailer part is taken too.
fn read_chunk<C: Conn>(
    arrivals: &mut Arrivals,
    conn: &mut C,
    body: &mut Vec<u8>,
) -> Result<bool, EdgeError>
    requires small { vec_len body.old ≤ most_body }
    requires counted { length body.old.items ≤ arrivals.old.taken }
    requires taken { arrivals.old.taken ≤ 80000000000 }
    ensures reads { ReadsChunk arrivals.old arrivals.new body.old.items body.new.items (C.read_traffic conn.old) (C.read_traffic conn.new) result }
    ensures cause { EdgeCause (C.read_faults conn.old) (C.read_faults conn.new) result }
{
    let size = match await_part(Part::Line, arrivals, conn) {
        Err(error) => return Err(error),
        Ok(size) => size,
    };
    if size == 0 {
        return match await_part(Part::Trailer, arrivals, conn) {
            Err(error) => Err(error),
            Ok(_) => Ok(false),
        };
    }
    match read_data(arrivals, conn, body, size) {
        Err(error) => Err(error),
        Ok(()) => Ok(true),
    }
}

// Reads all chunks of a body, and joins their bytes.
fn read_chunks<C: Conn>(
    arrivals: &mut Arrivals,
    conn: &mut C,
    body: &mut Vec<u8>,
) -> Result<(), EdgeError>
    requires empty { body.old.items ≡ [] }
    requires taken { arrivals.old.taken ≤ most_head }
    ensures reads { ReadsBody ByChunks arrivals.old body.new.items (C.read_traffic conn.old) (C.read_traffic conn.new) result }
    ensures cause { EdgeCause (C.read_faults conn.old) (C.read_faults conn.new) result }
{
    'chunks: loop {
        match read_chunk(arrivals, conn, body) {
            Err(error) => return Err(error),
            Ok(false) => return Ok(()),
            Ok(true) => {}
        }
    }
}

// Reads a body that ends with the input.
fn read_to_end<C: Conn>(
    arrivals: &Arrivals,
    conn: &mut C,
    body: &mut Vec<u8>,
) -> Result<(), EdgeError>
    requires empty { body.old.items ≡ [] }
    ensures reads { ReadsBody ToEnd arrivals.now body.new.items (C.read_traffic conn.old) (C.read_traffic conn.new) result }
    ensures cause { EdgeCause (C.read_faults conn.old) (C.read_faults conn.new) result }
{
    if body.extend_from_slice(arrivals.rest()).is_err() {
        return Err(EdgeError::OutOfMemory);
    }
    while body.len() <= MOST_BODY {
        let room = MOST_BODY + 1 - body.len();
        let count = match receive(conn, body, room) {
            Err(error) => return Err(edge_error(error)),
            Ok(count) => count,
        };
        if count == 0 {
            return Ok(());
        }
    }
    Err(EdgeError::BodyTooLong {
        n: body.len() as u64,
    })
}

// Reads a body of `size` bytes: those that have come, and then more as they come, behind them.
fn read_sized<C: Conn>(arrivals: Arrivals, conn: &mut C, size: usize) -> Result<Body, EdgeError>
    requires small { size ≤ most_body }
    requires taken { arrivals.taken ≤ most_head }
    ensures reads { (body : List ℕ) × ReadsBody (BySize size) arrivals body (C.read_traffic conn.old) (C.read_traffic conn.new) result × IfOk result (λ b. b ≡ body) }
    ensures cause { EdgeCause (C.read_faults conn.old) (C.read_faults conn.new) result }
{
    let taken = arrivals.taken() as usize;
    let (at, front) = arrivals.into_front(size);
    let mut bytes = front;
    let whole = at + size;
    if bytes.reserve(size).is_err() {
        return Err(EdgeError::OutOfMemory);
    }
    match read_rest(conn, &mut bytes, taken - at, whole) {
        Err(error) => Err(error),
        Ok(()) => Ok(Body::behind(at, bytes)),
    }
}

// Reads a body of chunks.
fn read_chunked<C: Conn>(alloc: Global, arrivals: Arrivals, conn: &mut C) -> Result<Body, EdgeError>
    requires taken { arrivals.taken ≤ most_head }
    ensures reads { (body : List ℕ) × ReadsBody ByChunks arrivals body (C.read_traffic conn.old) (C.read_traffic conn.new) result × IfOk result (λ b. b ≡ body) }
    ensures cause { EdgeCause (C.read_faults conn.old) (C.read_faults conn.new) result }
{
    let mut arrivals = arrivals;
    let mut body = Vec::new(alloc);
    match read_chunks(&mut arrivals, conn, &mut body) {
        Err(error) => Err(error),
        Ok(()) => Ok(Body::from_vec(body)),
    }
}

// Reads a body that ends with the input.
fn read_ended<C: Conn>(alloc: Global, arrivals: Arrivals, conn: &mut C) -> Result<Body, EdgeError>
    ensures reads { (body : List ℕ) × ReadsBody ToEnd arrivals body (C.read_traffic conn.old) (C.read_traffic conn.new) result × IfOk result (λ b. b ≡ body) }
    ensures cause { EdgeCause (C.read_faults conn.old) (C.read_faults conn.new) result }
{
    let mut body = Vec::new(alloc);
    match read_to_end(&arrivals, conn, &mut body) {
        Err(error) => Err(error),
        Ok(()) => Ok(Body::from_vec(body)),
    }
}

// Reads the body behind a head, in this form.
pub(crate) fn read_body<C: Conn>(
    alloc: Global,
    form: BodyForm,
    arrivals: Arrivals,
    conn: &mut C,
) -> Result<Body, EdgeError>
    requires small { IsSmallForm form }
    requires taken { arrivals.taken ≤ most_head }
    ensures reads { (body : List ℕ) × ReadsBody form arrivals body (C.read_traffic conn.old) (C.read_traffic conn.new) result × IfOk result (λ b. b ≡ body) }
    ensures cause { EdgeCause (C.read_faults conn.old) (C.read_faults conn.new) result }
{
    match form {
        BodyForm::BySize(size) => read_sized(arrivals, conn, size),
        BodyForm::ByChunks => read_chunked(alloc, arrivals, conn),
        BodyForm::ToEnd => read_ended(alloc, arrivals, conn),
    }
}
