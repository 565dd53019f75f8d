// A sink that keeps in memory what was written.
ghost use Rattle.std.specs.Prelude.{◌≡◌, ◌+◌, ◌↔◌, Some, IfOk, IfErr, IsErrOf, Contains};
ghost use Rattle.actor_ports.specs.Port.{HasCause, WritesAll};
ghost use Rattle.actor_ports.specs.Memory.{SinkMemory, new_sink, sink_after};

use super::is_next_failing;
use crate::port::{PortError, Sink};
use std::alloc::Global;
use std::marker::Model;

/// A sink that keeps in memory what was written, and fails at the writes whose numbers it was given.
///
/// For tests: it reports what was written, and its faults come where they are asked for.
/// Writes are numbered from 1; one that answers `OutOfMemory` has no number.
#[derive(Drop)]
pub struct MemSink {
    bytes: Vec<u8>,
    calls: u64,
    faults: u64,
    failing: Vec<u64>,
}

impl Model for MemSink {
    ghost use Rattle.std.specs.Prelude.{◌≤◌};
    ghost use Rattle.actor_ports.specs.Memory.{SinkMemory};

    ghost Value = { SinkMemory };

    ghost view = { λ s. record { written = s.bytes.items; calls = s.calls; faults = s.faults; failing = s.failing.items } };

    ghost invariant = { λ s. s.faults ≤ s.calls };
}

impl MemSink {
    /// An empty sink, whose writes with the numbers in `failing` are to fail.
    /// The only error is `OutOfMemory`.
    pub fn new(alloc: Global, failing: &[u64]) -> Result<MemSink, PortError>
        ensures holds { IfOk result (λ s. s ≡ new_sink failing.now) }
        ensures memory { IfErr result (λ e. e ≡ PortError.OutOfMemory) }
    {
        let Ok(failing) = Vec::from_slice(alloc, failing) else {
            return Err(PortError::OutOfMemory);
        };
        Ok(MemSink {
            bytes: Vec::new(alloc),
            calls: 0,
            faults: 0,
            failing,
        })
    }

    /// Lends what was written so far.
    pub fn bytes(&self) -> &[u8]
        ensures { result.now ≡ self.now.written }
    {
        self.bytes.as_slice()
    }
}

impl Sink for MemSink {
    ghost contents = { λ s. Some s.written };

    ghost write_faults = { λ s. s.faults };

    /// Keeps all of the bytes. It fails exactly if the number of the write is listed, and then keeps none.
    /// After 2^64 - 1 writes no further one can be counted: it answers `OutOfMemory` and changes nothing.
    fn write(&mut self, bytes: &[u8]) -> Result<(), PortError>
        ensures written { WritesAll (Some self.old.written) (Some self.new.written) bytes.now result }
        ensures cause { HasCause self.old.faults self.new.faults result }

        ensures failed { IsErrOf result PortError.Failed ↔ Contains self.old.failing (self.old.calls + 1) }
        ensures after { self.new ≡ sink_after self.old bytes.now result }
    {
        if is_next_failing(self.failing.as_slice(), self.calls) {
            self.calls += 1;
            self.faults += 1;
            return Err(PortError::Failed);
        }
        if self.calls == u64::MAX {
            return Err(PortError::OutOfMemory);
        }
        if self.bytes.extend_from_slice(bytes).is_err() {
            return Err(PortError::OutOfMemory);
        }
        self.calls += 1;
        Ok(())
    }
}
