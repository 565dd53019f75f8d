// The traits of the outside, and their error type.
ghost use Rattle.std.specs.Prelude.{◌≡◌, ◌<◌, ◌≤◌, ℕ, ◌+◌, List, Option, None, option_map, IfOk, IfErr, OnErr};
ghost use Rattle.actor_ports.specs.Port.{HasCause, Appends, TakesFront, WritesAll};
ghost use Rattle.actor_ports.specs.Traffic.{Place, Traffic, Dialled, Receives, Sends, Dials, TakesRoom, TakesBack, Counts, StartsAnew};

use crate::waits::Waits;
use thiserror::Error;

/// Why a call to the outside gave no answer.
#[derive(Clone, Copy, Debug, PartialEq, Eq, Error)]
pub enum PortError {
    /// The object itself failed; its count of faults has risen.
    #[error("the outside failed")]
    Failed,
    /// There was no memory for the answer.
    #[error("out of memory")]
    OutOfMemory,
}

/// Where bytes come from: a file, a stream or a list in memory.
pub trait Source {
    /// The bytes that are left, if the source reports them.
    ghost remaining: { Self → Option (List ℕ) };

    /// How often the source has failed so far.
    ghost read_faults: { Self → ℕ };

    /// For a connection that reports its bytes, what went over it so far; `None` for any other source.
    ghost read_traffic: { Self → Option Traffic } = { λ _. None };

    /// Appends up to `most` bytes to `into` and answers how many; 0 only if nothing is left.
    /// After an error nothing was appended. After `Failed` a prefix of what was left may be lost; after `OutOfMemory`
    /// nothing is lost.
    fn read(&mut self, into: &mut Vec<u8>, most: usize) -> Result<usize, PortError>
        requires { 0 < most }
        ensures most { IfOk result (λ n. n ≤ most) }
        ensures appends { Appends into.old.items into.new.items result }
        ensures front { TakesFront (remaining self.old) (remaining self.new) into.old.items into.new.items result }
        ensures cause { HasCause (read_faults self.old) (read_faults self.new) result }
        ensures receives { Receives (read_traffic self.old) (read_traffic self.new) result };
}

/// Where bytes go: a file, a stream or a list in memory.
pub trait Sink {
    /// The bytes that were written so far, if the sink reports them.
    ghost contents: { Self → Option (List ℕ) };

    /// How often the sink has failed so far.
    ghost write_faults: { Self → ℕ };

    /// For a connection that reports its bytes, what went over it so far; `None` for any other sink.
    ghost write_traffic: { Self → Option Traffic } = { λ _. None };

    /// Writes all of the bytes. After `Failed` a prefix of them was written, after `OutOfMemory` none.
    fn write(&mut self, bytes: &[u8]) -> Result<(), PortError>
        ensures written { WritesAll (contents self.old) (contents self.new) bytes.now result }
        ensures cause { HasCause (write_faults self.old) (write_faults self.new) result }
        ensures sends { Sends (write_traffic self.old) (write_traffic self.new) bytes.now result };
}

/// One end of a connection: a source and a sink in one, with one count of faults and one traffic for both.
/// A read doesn't change what was written, and a write doesn't change what is left to read. A read that fails loses
/// nothing of what is left.
pub trait Conn: Source + Sink + Drop + Send {
    ghost one_count: { (c : Self) → Self.read_faults c ≡ Self.write_faults c };

    ghost one_traffic: { (c : Self) → Self.read_traffic c ≡ Self.write_traffic c };

    ghost left_told: { (c : Self) → Self.remaining c ≡ option_map (λ (t : Traffic). t.left) (Self.read_traffic c) };
}

/// What makes connections.
pub trait Dial: Drop + Send {
    type Link: Conn;

    /// How often the dialler has failed so far: its failed dials, and the failed links given back.
    ghost dial_faults: { Self → ℕ };

    /// What was dialled and given back, if the dialler reports it.
    ghost dialled: { Self → Option Dialled };

    /// How many more links can be given back: at least those that were dialled and not yet given back.
    ghost room: { Self → ℕ };

    /// Connects to a port of an IPv4 address, given as a number whose highest byte is the address's first. The link has
    /// no fault yet.
    fn dial(&mut self, ip: u32, port: u16) -> Result<Self::Link, PortError>
        ensures fresh { IfOk result (λ link. Self.Link.read_faults link ≡ 0) }
        ensures dials { Dials Self.Link.read_traffic (dialled self.old) (dialled self.new) (record { ip = ip; port = port }) result }
        ensures room { TakesRoom (room self.old) (room self.new) result }
        ensures cause { HasCause (dial_faults self.old) (dial_faults self.new) result };

    /// Connects as `dial` does; the link waits so, where the dialler can see to that.
    fn dial_waiting(&mut self, ip: u32, port: u16, _waits: Waits) -> Result<Self::Link, PortError>
        ensures fresh { IfOk result (λ link. Self.Link.read_faults link ≡ 0) }
        ensures dials { Dials Self.Link.read_traffic (dialled self.old) (dialled self.new) (record { ip = ip; port = port }) result }
        ensures room { TakesRoom (room self.old) (room self.new) result }
        ensures cause { HasCause (dial_faults self.old) (dial_faults self.new) result }
    {
        self.dial(ip, port)
    }

    /// Takes a link back. It needs no memory and can't fail; a link that failed counts as a fault of the dialler.
    fn done(&mut self, link: Self::Link)
        requires { 0 < room self.old }
        ensures takes_back { TakesBack (dialled self.old) (dialled self.new) (Self.Link.read_traffic link) }
        ensures room { room self.old ≤ room self.new + 1 }
        ensures cause { Counts (dial_faults self.old) (dial_faults self.new) (Self.Link.read_faults link) };

    /// Takes a link back as `done` does. Another exchange may be made over it, so the dialler may give it out again.
    fn keep(&mut self, link: Self::Link)
        requires { 0 < room self.old }
        ensures takes_back { TakesBack (dialled self.old) (dialled self.new) (Self.Link.read_traffic link) }
        ensures room { room self.old ≤ room self.new + 1 }
        ensures cause { Counts (dial_faults self.old) (dial_faults self.new) (Self.Link.read_faults link) }
    {
        self.done(link);
    }

    /// Another dialler of the same kind, with its own count of faults, which is 0. Its only error is `OutOfMemory`.
    fn another(&self) -> Result<Self, PortError>
    where
        Self: Sized,
        ensures fresh { IfOk result (λ other. dial_faults other ≡ 0) }
        ensures anew { IfOk result (λ other. StartsAnew (dialled self.now) (dialled other)) }
        ensures memory { IfErr result (λ e. e ≡ PortError.OutOfMemory) };

    /// Says that no connection of this program is wanted any more: each fails soon, where the dialler can see to that, but for
    /// those that are dialled later and may wait for so long in all.
    fn end_links(&self) {}
}

/// What waits for connections.
pub trait Listen: Drop + Send {
    type Link: Conn;

    /// How often the listener has failed so far.
    ghost listen_faults: { Self → ℕ };

    /// The next connection, which has no fault yet.
    fn accept(&mut self) -> Result<Self::Link, PortError>
        ensures fresh { IfOk result (λ link. Self.Link.read_faults link ≡ 0) }
        ensures cause { HasCause (listen_faults self.old) (listen_faults self.new) result };

    /// Closes the port, where the listener can: who connects from now on is refused, and each accept fails.
    fn close(&mut self)
        ensures same { listen_faults self.new ≡ listen_faults self.old }
    {}
}

/// What gives the time, in milliseconds since 1970-01-01T00:00:00Z.
pub trait Clock: Drop + Send {
    /// The moment shown last: it will show none before this one.
    ghost shown: { Self → ℕ };

    /// The present moment. It is never before one that this clock has shown, and always before 9999-01-01T00:00:00Z.
    fn now_ms(&mut self) -> u64
        ensures bound { result < 253370764800000 }
        ensures never_falls { shown self.old ≤ result }
        ensures shows { shown self.new ≡ result };

    /// Lets `ms` milliseconds pass, as far as this clock can. It promises nothing about what it shows afterwards, save
    /// that this isn't before what it has shown.
    fn pause(&mut self, ms: u64)
        ensures never_falls { shown self.old ≤ shown self.new };

    /// Another clock of the same kind, which shows nothing before what this one has shown. Its only error is
    /// `OutOfMemory`.
    fn another(&self) -> Result<Self, PortError>
    where
        Self: Sized,
        ensures never_falls { IfOk result (λ other. shown self.now ≤ shown other) }
        ensures memory { IfErr result (λ e. e ≡ PortError.OutOfMemory) };
}
