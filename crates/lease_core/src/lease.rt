// A lease: it ends five seconds after the sending of the last request that was answered.
ghost use Rattle.std.specs.Prelude.{◌≡◌};
ghost use Rattle.lease_core.specs.Lease.{extended, has_ended};

use std::marker::Model;

/// How long a lease lasts, in milliseconds.
const LEASE_TIME: u64 = 5000;

/// A member's lease, by the member's own clock. Its start is the greatest moment among its beginning and the sending
/// moments of the requests that were answered. Moments are in milliseconds. No call takes memory.
#[derive(Drop)]
pub struct Lease {
    start: u64,
}

impl Model for Lease {
    ghost use Rattle.std.specs.Prelude.{ℕ};

    ghost Value = { ℕ };

    ghost view = { λ a. a.start };
}

impl Lease {
    /// A lease that begins at this moment.
    pub fn new(now: u64) -> Lease
        ensures { result ≡ now }
    {
        Lease { start: now }
    }

    /// A request that was sent at this moment was answered. An answer to an earlier request than one answered before
    /// changes nothing.
    pub fn answered(&mut self, sent: u64)
        ensures { self.new ≡ extended self.old sent }
    {
        if sent > self.start {
            self.start = sent;
        }
    }

    /// The moment from which the lease counts.
    pub fn start(&self) -> u64
        ensures { result ≡ self.now }
    {
        self.start
    }

    /// Whether 5,000 milliseconds or more have passed since the lease's start.
    pub fn ended(&self, now: u64) -> bool
        ensures { result ≡ has_ended self.now now }
    {
        now.saturating_sub(self.start) >= LEASE_TIME
    }
}
