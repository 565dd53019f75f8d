// A source over bytes in memory.
ghost use Rattle.std.specs.Prelude.{◌≡◌, ◌<◌, ◌≤◌, ◌+◌, ◌↔◌, Some, IfOk, IfErr, IsErrOf, Contains, length, min};
ghost use Rattle.actor_ports.specs.Port.{HasCause, Appends, TakesFront};
ghost use Rattle.actor_ports.specs.Memory.{SourceMemory, new_source, source_after};

use super::is_next_failing;
use crate::port::{PortError, Source};
use std::alloc::Global;
use std::marker::Model;

/// A source over bytes in memory, which fails at the reads whose numbers it was given.
///
/// For tests: it reports what is left, and its faults come where they are asked for.
/// Reads are numbered from 1; one that answers `OutOfMemory` has no number.
#[derive(Drop)]
pub struct MemSource {
    bytes: Vec<u8>,
    place: usize,
    calls: u64,
    faults: u64,
    failing: Vec<u64>,
}

impl Model for MemSource {
    ghost use Rattle.std.specs.Prelude.{◌≤◌, drop, vec_len};
    ghost use Rattle.actor_ports.specs.Memory.{SourceMemory};

    ghost Value = { SourceMemory };

    ghost view = { λ s. record { left = drop s.place s.bytes.items; calls = s.calls; faults = s.faults; failing = s.failing.items } };

    ghost invariant = { λ s. (s.place ≤ vec_len s.bytes) × (s.faults ≤ s.calls) };
}

impl MemSource {
    /// A source of these bytes, whose reads with the numbers in `failing` are to fail.
    /// The only error is `OutOfMemory`.
    pub fn new(alloc: Global, bytes: &[u8], failing: &[u64]) -> Result<MemSource, PortError>
        ensures holds { IfOk result (λ s. s ≡ new_source bytes.now failing.now) }
        ensures memory { IfErr result (λ e. e ≡ PortError.OutOfMemory) }
    {
        let Ok(bytes) = Vec::from_slice(alloc, bytes) else {
            return Err(PortError::OutOfMemory);
        };
        let Ok(failing) = Vec::from_slice(alloc, failing) else {
            return Err(PortError::OutOfMemory);
        };
        Ok(MemSource {
            bytes,
            place: 0,
            calls: 0,
            faults: 0,
            failing,
        })
    }
}

impl Source for MemSource {
    ghost remaining = { λ s. Some s.left };

    ghost read_faults = { λ s. s.faults };

    /// Takes as much as is left, up to `most`. It fails exactly if the number of the read is listed.
    /// After 2^64 - 1 reads no further one can be counted: it answers `OutOfMemory` and changes nothing.
    fn read(&mut self, into: &mut Vec<u8>, most: usize) -> Result<usize, PortError>
        requires { 0 < most }
        ensures most { IfOk result (λ n. n ≤ most) }
        ensures appends { Appends into.old.items into.new.items result }
        ensures front { TakesFront (Some self.old.left) (Some self.new.left) into.old.items into.new.items result }
        ensures cause { HasCause self.old.faults self.new.faults result }

        ensures taken { IfOk result (λ n. n ≡ min most (length self.old.left)) }
        ensures failed { IsErrOf result PortError.Failed ↔ Contains self.old.failing (self.old.calls + 1) }
        ensures after { self.new ≡ source_after self.old result }
    {
        if is_next_failing(self.failing.as_slice(), self.calls) {
            self.calls += 1;
            self.faults += 1;
            return Err(PortError::Failed);
        }
        if self.calls == u64::MAX {
            return Err(PortError::OutOfMemory);
        }
        let left = &self.bytes.as_slice()[self.place..];
        let count = most.min(left.len());
        if into.extend_from_slice(&left[..count]).is_err() {
            return Err(PortError::OutOfMemory);
        }
        self.place += count;
        self.calls += 1;
        Ok(count)
    }
}
