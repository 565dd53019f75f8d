// The bytes of a reply as they come.
ghost use Rattle.std.specs.Prelude.{◌≡◌, ◌≤◌, ◌<◌, ◌+◌, length, drop, take, vec_len};
ghost use Rattle.http_edge.specs.Arrivals.{Arrived, nothing_arrived, skipped, Fetches};
ghost use Rattle.http_edge.specs.Fields.{most_head, most_body};
ghost use Rattle.http_edge.specs.Requests.{EdgeCause};

use crate::carry::receive;
use crate::error::{EdgeError, edge_error};
use actor_ports::Conn;
use std::alloc::Global;
use std::marker::Model;

const MOST_HEAD: usize = 16_384;

// The bytes of a message that have come, at most 16,384, of which the first `at` are taken.
#[derive(Drop)]
pub(crate) struct Arrivals {
    bytes: Vec<u8>,
    at: usize,
    before: u64,
}

impl Model for Arrivals {
    ghost use Rattle.std.specs.Prelude.{◌≤◌, ◌+◌, drop, vec_len};
    ghost use Rattle.http_edge.specs.Fields.{most_head};
    ghost use Rattle.http_edge.specs.Arrivals.{Arrived};

    ghost Value = { Arrived };

    ghost view = { λ a. record { rest = drop a.at a.bytes.items; taken = a.before } };

    ghost invariant = { λ a. (a.at ≤ vec_len a.bytes) × (vec_len a.bytes ≤ most_head) × (a.at ≤ a.before) };
}

impl Arrivals {
    pub(crate) fn new(alloc: Global) -> Arrivals
        ensures { result ≡ nothing_arrived }
    {
        Arrivals {
            bytes: Vec::new(alloc),
            at: 0,
            before: 0,
        }
    }

    // The bytes that aren't taken yet.
    pub(crate) fn rest(&self) -> &[u8]
        ensures rest { result.now ≡ self.now.rest }
        ensures short { length result.now ≤ most_head }
    {
        &self.bytes.as_slice()[self.at..]
    }

    // How many bytes were taken so far.
    pub(crate) fn taken(&self) -> u64
        ensures { result ≡ self.now.taken }
    {
        self.before
    }

    // The bytes that aren't taken yet, at most the first `most` of them, behind so many others that were taken.
    pub(crate) fn into_front(self, most: usize) -> (usize, Vec<u8>)
        requires { most ≤ most_body }
        ensures front { drop result.0 result.1.items ≡ take most self.rest }
        ensures within { result.0 ≤ vec_len result.1 }
        ensures behind { result.0 ≤ length result.1.items }
        ensures short { vec_len result.1 ≤ most_head }
        ensures taken { result.0 ≤ self.taken }
    {
        let Arrivals {
            bytes,
            at,
            before: _,
        } = self;
        let mut bytes = bytes;
        bytes.truncate(at + most);
        (at, bytes)
    }

    // Takes the next n bytes.
    pub(crate) fn skip(&mut self, n: usize)
        requires within { n ≤ length self.old.rest }
        requires small { self.old.taken + n < 18446744073709551616 }
        ensures { self.new ≡ skipped n self.old }
    {
        self.at += n;
        self.before += n as u64;
    }

    // Counts n bytes that were taken straight from the connection.
    pub(crate) fn count(&mut self, n: usize)
        requires small { self.old.taken + n < 18446744073709551616 }
        ensures { self.new ≡ record { rest = self.old.rest; taken = self.old.taken + n } }
    {
        self.before += n as u64;
    }

    // Reads more bytes from the connection, behind those that aren't taken yet.
    pub(crate) fn fetch<C: Conn>(&mut self, conn: &mut C) -> Result<(), EdgeError>
        requires small { self.old.taken + most_head < 18446744073709551616 }
        ensures fetches { Fetches self.old self.new (C.read_traffic conn.old) (C.read_traffic conn.new) result }
        ensures short { length self.new.rest ≤ most_head }
        ensures cause { EdgeCause (C.read_faults conn.old) (C.read_faults conn.new) result }
    {
        drop(self.bytes.drain(..self.at));
        self.at = 0;
        receive_more(conn, &mut self.bytes, self.before)
    }
}

// Reads more bytes from the connection, behind these; `before` bytes were taken before them.
fn receive_more<C: Conn>(conn: &mut C, bytes: &mut Vec<u8>, before: u64) -> Result<(), EdgeError>
    requires short { vec_len bytes.old ≤ most_head }
    requires small { before + most_head < 18446744073709551616 }
    ensures fetches { Fetches (record { rest = bytes.old.items; taken = before }) (record { rest = bytes.new.items; taken = before }) (C.read_traffic conn.old) (C.read_traffic conn.new) result }
    ensures short { vec_len bytes.new ≤ most_head }
    ensures cause { EdgeCause (C.read_faults conn.old) (C.read_faults conn.new) result }
{
    let len = bytes.len();
    if len == MOST_HEAD {
        return Err(EdgeError::HeadTooLong);
    }
    let count = match receive(conn, bytes, MOST_HEAD - len) {
        Err(error) => return Err(edge_error(error)),
        Ok(count) => count,
    };
    if count == 0 {
        return Err(EdgeError::CutShort {
            n: before + len as u64,
        });
    }
    Ok(())
}
