// A connection over bytes in memory.
ghost use Rattle.std.specs.Prelude.{◌≡◌, ◌<◌, ◌≤◌, ◌+◌, ◌↔◌, Some, IfOk, IfErr, IsErrOf, IsTrue, Contains, length, min, refl};
ghost use Rattle.actor_ports.specs.Port.{HasCause, Appends, TakesFront, WritesAll};
ghost use Rattle.actor_ports.specs.Traffic.{Receives, Sends};
ghost use Rattle.actor_ports.specs.Memory.{ConnMemory, new_conn, conn_read, conn_written, leading_to};

use super::is_next_failing;
use crate::port::{Conn, PortError, Sink, Source};
use std::alloc::Global;
use std::marker::Model;

/// A connection whose other end sends given bytes, and which keeps what is written to it. It fails at the calls whose
/// numbers it was given.
///
/// For tests: it reports what was read, what is left and what was written. Reads and writes are numbered together,
/// from 1; a call that answers `OutOfMemory` has no number.
#[derive(Drop)]
pub struct MemConn {
    ip: u32,
    port: u16,
    incoming: Vec<u8>,
    place: usize,
    written: Vec<u8>,
    calls: u64,
    faults: u64,
    failing: Vec<u64>,
}

impl Model for MemConn {
    ghost use Rattle.std.specs.Prelude.{◌≤◌, take, drop, vec_len};
    ghost use Rattle.actor_ports.specs.Memory.{ConnMemory};

    ghost Value = { ConnMemory };

    ghost view = { λ s. record {
      traffic = record { at = record { ip = s.ip; port = s.port }; read = take s.place s.incoming.items; left = drop s.place s.incoming.items; written = s.written.items };
      calls = s.calls;
      faults = s.faults;
      failing = s.failing.items;
    } };

    ghost invariant = { λ s. (s.place ≤ vec_len s.incoming) × (s.faults ≤ s.calls) };
}

impl MemConn {
    /// A connection whose other end sends these bytes, and whose calls with the numbers in `failing` are to fail.
    /// The only error is `OutOfMemory`.
    pub fn new(alloc: Global, incoming: &[u8], failing: &[u64]) -> Result<MemConn, PortError>
        ensures holds { IfOk result (λ s. s ≡ new_conn incoming.now failing.now) }
        ensures memory { IfErr result (λ e. e ≡ PortError.OutOfMemory) }
    {
        let Ok(incoming) = Vec::from_slice(alloc, incoming) else {
            return Err(PortError::OutOfMemory);
        };
        let Ok(failing) = Vec::from_slice(alloc, failing) else {
            return Err(PortError::OutOfMemory);
        };
        Ok(MemConn {
            ip: 0,
            port: 0,
            incoming,
            place: 0,
            written: Vec::new(alloc),
            calls: 0,
            faults: 0,
            failing,
        })
    }

    /// Lends what was written so far.
    pub fn written(&self) -> &[u8]
        ensures { result.now ≡ self.now.traffic.written }
    {
        self.written.as_slice()
    }

    // Whether one of its calls has failed.
    pub(super) fn has_failed(&self) -> bool
        ensures { IsTrue result ↔ (0 < self.now.faults) }
    {
        self.faults > 0
    }

    // The same connection after it was dialled at this address: nothing is read of it or written to it yet.
    pub(super) fn leading_to(mut self, ip: u32, port: u16) -> MemConn
        ensures { result ≡ leading_to (record { ip = ip; port = port }) self }
    {
        let left = self.incoming.len() - self.place;
        self.incoming.rotate_left(self.place);
        self.incoming.truncate(left);
        self.place = 0;
        self.written.clear();
        self.ip = ip;
        self.port = port;
        self
    }

    // An equal connection. The only error is `OutOfMemory`.
    pub(super) fn copy(&self, alloc: Global) -> Result<MemConn, PortError>
        ensures equal { IfOk result (λ other. other ≡ self.now) }
        ensures memory { IfErr result (λ e. e ≡ PortError.OutOfMemory) }
    {
        let Ok(incoming) = Vec::from_slice(alloc, self.incoming.as_slice()) else {
            return Err(PortError::OutOfMemory);
        };
        let Ok(written) = Vec::from_slice(alloc, self.written.as_slice()) else {
            return Err(PortError::OutOfMemory);
        };
        let Ok(failing) = Vec::from_slice(alloc, self.failing.as_slice()) else {
            return Err(PortError::OutOfMemory);
        };
        Ok(MemConn {
            ip: self.ip,
            port: self.port,
            incoming,
            place: self.place,
            written,
            calls: self.calls,
            faults: self.faults,
            failing,
        })
    }
}

impl Source for MemConn {
    ghost remaining = { λ s. Some s.traffic.left };

    ghost read_faults = { λ s. s.faults };

    ghost read_traffic = { λ s. Some s.traffic };

    /// Takes as much as is left, up to `most`. It fails exactly if the number of the call is listed.
    /// After 2^64 - 1 calls no further one can be counted: it answers `OutOfMemory` and changes nothing.
    fn read(&mut self, into: &mut Vec<u8>, most: usize) -> Result<usize, PortError>
        requires { 0 < most }
        ensures most { IfOk result (λ n. n ≤ most) }
        ensures appends { Appends into.old.items into.new.items result }
        ensures front { TakesFront (Some self.old.traffic.left) (Some self.new.traffic.left) into.old.items into.new.items result }
        ensures cause { HasCause self.old.faults self.new.faults result }
        ensures receives { Receives (Some self.old.traffic) (Some self.new.traffic) result }

        ensures taken { IfOk result (λ n. n ≡ min most (length self.old.traffic.left)) }
        ensures failed { IsErrOf result PortError.Failed ↔ Contains self.old.failing (self.old.calls + 1) }
        ensures after { self.new ≡ conn_read self.old result }
    {
        if is_next_failing(self.failing.as_slice(), self.calls) {
            self.calls += 1;
            self.faults += 1;
            return Err(PortError::Failed);
        }
        if self.calls == u64::MAX {
            return Err(PortError::OutOfMemory);
        }
        let left = &self.incoming.as_slice()[self.place..];
        let count = most.min(left.len());
        if into.extend_from_slice(&left[..count]).is_err() {
            return Err(PortError::OutOfMemory);
        }
        self.place += count;
        self.calls += 1;
        Ok(count)
    }
}

impl Sink for MemConn {
    ghost contents = { λ s. Some s.traffic.written };

    ghost write_faults = { λ s. s.faults };

    ghost write_traffic = { λ s. Some s.traffic };

    /// Keeps all of the bytes. It fails exactly if the number of the call is listed, and then keeps none.
    /// After 2^64 - 1 calls no further one can be counted: it answers `OutOfMemory` and changes nothing.
    fn write(&mut self, bytes: &[u8]) -> Result<(), PortError>
        ensures written { WritesAll (Some self.old.traffic.written) (Some self.new.traffic.written) bytes.now result }
        ensures cause { HasCause self.old.faults self.new.faults result }
        ensures sends { Sends (Some self.old.traffic) (Some self.new.traffic) bytes.now result }

        ensures failed { IsErrOf result PortError.Failed ↔ Contains self.old.failing (self.old.calls + 1) }
        ensures after { self.new ≡ conn_written self.old bytes.now result }
    {
        if is_next_failing(self.failing.as_slice(), self.calls) {
            self.calls += 1;
            self.faults += 1;
            return Err(PortError::Failed);
        }
        if self.calls == u64::MAX {
            return Err(PortError::OutOfMemory);
        }
        if self.written.extend_from_slice(bytes).is_err() {
            return Err(PortError::OutOfMemory);
        }
        self.calls += 1;
        Ok(())
    }
}

impl Conn for MemConn {
    ghost one_count = { λ _. refl };

    ghost one_traffic = { λ _. refl };

    ghost left_told = { λ _. refl };
}
