// A clock over the system's clock.
ghost use Rattle.std.specs.Prelude.{◌≡◌, ◌<◌, ◌≤◌, ℕ, IfOk, IfErr};

use crate::port::{Clock, PortError};
use std::marker::Model;
use std::time::{Duration, Instant, SystemTime, UNIX_EPOCH};
use std::{thread, time};

// The last moment before 9999-01-01T00:00:00Z.
const LAST: u64 = 253_370_764_799_999;

/// A clock over the system's. If the system's clock goes back or can't be read, this one shows its last moment again.
///
/// In `main(rt: HostRuntime)`: `let clock = SystemClock::new(rt);`
#[derive(Drop)]
pub struct SystemClock<C: time::Clock + Copy + Send> {
    clock: C,
    start: Option<Start>,
    shown: u64,
}

// When a steady clock was made: by the system's clock, in milliseconds since 1970, and by the one that nobody sets.
#[derive(Clone, Copy)]
struct Start {
    at: u64,
    by: Instant,
}

impl<C: time::Clock + Copy + Send> Model for SystemClock<C> {
    ghost use Rattle.std.specs.Prelude.{ℕ, ◌<◌};

    ghost Value = { ℕ };

    ghost view = { λ s. s.shown };

    ghost invariant = { λ s. s.shown < 253370764800000 };
}

impl<C: time::Clock + Copy + Send> SystemClock<C> {
    /// A clock that has shown nothing yet.
    pub fn new(clock: C) -> SystemClock<C>
        ensures { result ≡ 0 }
    {
        SystemClock {
            clock,
            start: None,
            shown: 0,
        }
    }

    /// A clock that has shown nothing yet, and reads the system's clock now alone: from then on it goes as time passes,
    /// whoever sets the system's clock. Where the system has no such clock it is one as `new` makes it.
    pub fn steady(clock: C) -> SystemClock<C>
        ensures { result ≡ 0 }
    {
        let at = read_ms(&clock);
        let start = Instant::now(&clock).ok().map(|by| Start { at, by });
        SystemClock {
            clock,
            start,
            shown: 0,
        }
    }
}

impl<C: time::Clock + Copy + Send> Clock for SystemClock<C> {
    ghost shown = { λ s. s };

    /// Reads the system's clock, or that by which it is steady.
    fn now_ms(&mut self) -> u64
        ensures bound { result < 253370764800000 }
        ensures never_falls { self.old ≤ result }
        ensures shows { self.new ≡ result }
    {
        let now = read_since(&self.clock, self.start).min(LAST);
        self.shown = self.shown.max(now);
        self.shown
    }

    /// Sleeps.
    fn pause(&mut self, ms: u64)
        ensures never_falls { self.old ≤ self.new }

        ensures same { self.new ≡ self.old }
    {
        thread::sleep(&self.clock, Duration::from_millis(ms));
    }

    /// An equal clock. It takes no memory.
    fn another(&self) -> Result<SystemClock<C>, PortError>
        ensures never_falls { IfOk result (λ other. self.now ≤ other) }
        ensures memory { IfErr result (λ e. e ≡ PortError.OutOfMemory) }

        ensures equal { IfOk result (λ other. other ≡ self.now) }
    {
        Ok(SystemClock {
            clock: self.clock,
            start: self.start,
            shown: self.shown,
        })
    }
}

// The present moment, by a steady clock where one was started; 0 if it can't be read.
fn read_since(clock: &impl time::Clock, start: Option<Start>) -> u64 {
    let Some(Start { at, by }) = start else {
        return read_ms(clock);
    };
    match by.elapsed(clock) {
        Ok(past) => at.saturating_add(whole_ms(past)),
        Err(_) => 0,
    }
}

// The milliseconds since 1970 by the system's clock; 0 if it can't be read.
fn read_ms(clock: &impl time::Clock) -> u64 {
    let Ok(moment) = SystemTime::now(clock) else {
        return 0;
    };
    match moment.duration_since(UNIX_EPOCH) {
        Ok(since) => whole_ms(since),
        Err(_) => 0,
    }
}

// The whole milliseconds of a time.
fn whole_ms(time: Duration) -> u64 {
    u64::try_from(time.as_millis()).unwrap_or(u64::MAX)
}
