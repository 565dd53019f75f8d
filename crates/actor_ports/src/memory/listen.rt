// A listener over connections in memory.
ghost use Rattle.std.specs.Prelude.{◌≡◌, ◌<◌, ◌+◌, ◌↔◌, ◌⊎◌, [], IfOk, IfErr, IsErrOf, Contains};
ghost use Rattle.actor_ports.specs.Port.{HasCause};
ghost use Rattle.actor_ports.specs.Memory.{AreFaultless, Accepts, new_listen, listen_after};

use super::conn::MemConn;
use super::must_fail;
use crate::port::{Listen, PortError};
use std::alloc::Global;
use std::marker::Model;

/// A listener that hands out given connections, in order. It fails at the accepts whose numbers it was given, and when
/// no connection is left.
///
/// For tests. Accepts are numbered from 1.
#[derive(Drop)]
pub struct MemListen {
    waiting: Vec<MemConn>,
    calls: u64,
    faults: u64,
    failing: Vec<u64>,
}

impl Model for MemListen {
    ghost use Rattle.std.specs.Prelude.{◌≤◌};
    ghost use Rattle.actor_ports.specs.Memory.{ListenMemory, AreFaultless};

    ghost Value = { ListenMemory };

    ghost view = { λ s. record { waiting = s.waiting.items; calls = s.calls; faults = s.faults; failing = s.failing.items } };

    ghost invariant = { λ s. (s.faults ≤ s.calls) × AreFaultless s.waiting.items };
}

impl MemListen {
    /// A listener of these connections, whose accepts with the numbers in `failing` are to fail.
    /// The only error is `OutOfMemory`.
    pub fn new(alloc: Global, links: Vec<MemConn>, failing: &[u64]) -> Result<MemListen, PortError>
        requires { AreFaultless links.items }
        ensures holds { IfOk result (λ s. s ≡ new_listen links.items failing.now) }
        ensures memory { IfErr result (λ e. e ≡ PortError.OutOfMemory) }
    {
        let Ok(failing) = Vec::from_slice(alloc, failing) else {
            return Err(PortError::OutOfMemory);
        };
        Ok(MemListen {
            waiting: links,
            calls: 0,
            faults: 0,
            failing,
        })
    }
}

impl Listen for MemListen {
    type Link = MemConn;

    ghost listen_faults = { λ s. s.faults };

    /// Hands out the next connection. It fails exactly if the number of the accept is listed or no connection is left.
    /// After 2^64 - 1 accepts no further one can be counted: then, and only then, it answers `OutOfMemory`.
    fn accept(&mut self) -> Result<MemConn, PortError>
        ensures fresh { IfOk result (λ link. link.faults ≡ 0) }
        ensures cause { HasCause self.old.faults self.new.faults result }

        ensures failed { self.old.calls < u64.MAX → (IsErrOf result PortError.Failed ↔ (Contains self.old.failing (self.old.calls + 1) ⊎ (self.old.waiting ≡ []))) }
        ensures spent { IsErrOf result PortError.OutOfMemory ↔ (self.old.calls ≡ u64.MAX) }
        ensures accepts { Accepts self.old.waiting result }
        ensures after { self.new ≡ listen_after self.old result }
    {
        if self.calls == u64::MAX {
            return Err(PortError::OutOfMemory);
        }
        let fails = must_fail(self.waiting.as_slice(), self.failing.as_slice(), self.calls);
        self.calls += 1;
        if fails {
            self.faults += 1;
            return Err(PortError::Failed);
        }
        Ok(self.waiting.remove(0))
    }
}
