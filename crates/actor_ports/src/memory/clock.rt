// A clock that shows given moments.
ghost use Rattle.std.specs.Prelude.{◌≡◌, ◌<◌, ◌≤◌, IfOk, IfErr};
ghost use Rattle.actor_ports.specs.Memory.{Rises, new_clock, clock_after};

use crate::port::{Clock, PortError};
use std::alloc::Global;
use std::marker::Model;

/// A clock that shows given moments in order, and after them the last one forever.
#[derive(Drop)]
pub struct MemClock {
    shown: u64,
    next: u64,
    later: Vec<u64>,
    place: usize,
}

impl Model for MemClock {
    ghost use Rattle.std.specs.Prelude.{◌≤◌, drop};
    ghost use Rattle.actor_ports.specs.Memory.{ClockMemory, Rises};

    ghost Value = { ClockMemory };

    ghost view = { λ s. record { shown = s.shown; next = s.next; later = drop s.place s.later.items } };

    ghost invariant = { λ s. (s.shown ≤ s.next) × Rises s.next (drop s.place s.later.items) };
}

impl MemClock {
    /// A clock of these moments, which never fall and are before 9999-01-01T00:00:00Z.
    /// The only error is `OutOfMemory`.
    pub fn new(alloc: Global, first: u64, later: &[u64]) -> Result<MemClock, PortError>
        requires { Rises first later.now }
        ensures holds { IfOk result (λ s. s ≡ new_clock first later.now) }
        ensures memory { IfErr result (λ e. e ≡ PortError.OutOfMemory) }
    {
        let Ok(later) = Vec::from_slice(alloc, later) else {
            return Err(PortError::OutOfMemory);
        };
        Ok(MemClock {
            shown: 0,
            next: first,
            later,
            place: 0,
        })
    }
}

impl Clock for MemClock {
    ghost shown = { λ s. s.shown };

    /// Shows the next moment.
    fn now_ms(&mut self) -> u64
        ensures bound { result < 253370764800000 }
        ensures never_falls { self.old.shown ≤ result }
        ensures shows { self.new.shown ≡ result }

        ensures next { result ≡ self.old.next }
        ensures after { self.new ≡ clock_after self.old }
    {
        let now = self.next;
        self.shown = now;
        if self.place < self.later.len() {
            self.next = self.later[self.place];
            self.place += 1;
        }
        now
    }

    /// Returns at once.
    fn pause(&mut self, _ms: u64)
        ensures never_falls { self.old.shown ≤ self.new.shown }

        ensures same { self.new ≡ self.old }
    {}

    /// A clock that has the same moments left to show.
    fn another(&self) -> Result<MemClock, PortError>
        ensures never_falls { IfOk result (λ other. self.now.shown ≤ other.shown) }
        ensures memory { IfErr result (λ e. e ≡ PortError.OutOfMemory) }

        ensures equal { IfOk result (λ other. other ≡ self.now) }
    {
        let Ok(later) = Vec::from_slice(*self.later.allocator(), self.later.as_slice()) else {
            return Err(PortError::OutOfMemory);
        };
        Ok(MemClock {
            shown: self.shown,
            next: self.next,
            later,
            place: self.place,
        })
    }
}
