// A dialler over connections in memory.
ghost use Rattle.std.specs.Prelude.{◌≡◌, ◌<◌, ◌≤◌, ◌+◌, ◌⊎◌, [], Some, IfOk, IfErr, IsErrOf, Contains, take};
ghost use Rattle.actor_ports.specs.Port.{HasCause};
ghost use Rattle.actor_ports.specs.Traffic.{Dials, TakesRoom, TakesBack, Counts, StartsAnew};
ghost use Rattle.actor_ports.specs.Memory.{AreFaultless, HandsOut, dialled_of, new_dial, dial_after, done_after, another_dial};

use super::conn::MemConn;
use super::must_fail;
use crate::port::{Dial, PortError};
use std::alloc::Global;
use std::marker::Model;

/// A dialler that hands out given connections, in order, and keeps those that are given back. It fails at the dials
/// whose numbers it was given, and when no connection is left.
///
/// For tests: it reports the places dialled and what went over each link given back. Dials are numbered from 1; one
/// that answers `OutOfMemory` has no number.
#[derive(Drop)]
pub struct MemDial {
    places: Vec<(u32, u16)>,
    links: Vec<MemConn>,
    waiting: Vec<MemConn>,
    room: usize,
    calls: u64,
    faults: u128,
    failing: Vec<u64>,
}

impl Model for MemDial {
    ghost use Rattle.std.specs.Prelude.{◌≤◌, ◌+◌, map, vec_len, vec_capacity};
    ghost use Rattle.actor_ports.specs.Memory.{DialMemory, AreFaultless, place_of};

    ghost Value = { DialMemory };

    ghost view = { λ s. record {
      places = map place_of s.places.items;
      links = s.links.items;
      waiting = s.waiting.items;
      room = s.room;
      calls = s.calls;
      faults = s.faults;
      failing = s.failing.items;
    } };

    ghost invariant = { λ s. (vec_len s.links + s.room ≤ vec_capacity s.links) × (s.faults ≤ s.calls + vec_len s.links) × AreFaultless s.waiting.items };
}

impl MemDial {
    /// A dialler of these connections, whose dials with the numbers in `failing` are to fail.
    /// The only error is `OutOfMemory`.
    pub fn new(alloc: Global, links: Vec<MemConn>, failing: &[u64]) -> Result<MemDial, PortError>
        requires { AreFaultless links.items }
        ensures holds { IfOk result (λ s. s ≡ new_dial links.items failing.now) }
        ensures memory { IfErr result (λ e. e ≡ PortError.OutOfMemory) }
    {
        let Ok(failing) = Vec::from_slice(alloc, failing) else {
            return Err(PortError::OutOfMemory);
        };
        Ok(MemDial {
            places: Vec::new(alloc),
            links: Vec::new(alloc),
            waiting: links,
            room: 0,
            calls: 0,
            faults: 0,
            failing,
        })
    }

    /// Lends the links given back, in order.
    pub fn links(&self) -> &[MemConn]
        ensures { result.now ≡ self.now.links }
    {
        self.links.as_slice()
    }
}

impl Dial for MemDial {
    type Link = MemConn;

    ghost dial_faults = { λ s. s.faults };

    ghost dialled = { λ s. Some (dialled_of s) };

    ghost room = { λ s. s.room };

    /// Hands out the next connection, and reserves the room to keep it. It fails only if the number of the dial is
    /// listed or no connection is left. If it hands out a connection, the number isn't listed.
    fn dial(&mut self, ip: u32, port: u16) -> Result<MemConn, PortError>
        ensures fresh { IfOk result (λ link. link.faults ≡ 0) }
        ensures dials { Dials (λ link. Some link.traffic) (Some (dialled_of self.old)) (Some (dialled_of self.new)) (record { ip = ip; port = port }) result }
        ensures room { TakesRoom self.old.room self.new.room result }
        ensures cause { HasCause self.old.faults self.new.faults result }

        ensures failed { IsErrOf result PortError.Failed → (Contains self.old.failing (self.old.calls + 1) ⊎ (self.old.waiting ≡ [])) }
        ensures listed { IfOk result (λ _. ¬ (Contains self.old.failing (self.old.calls + 1))) }
        ensures hands_out { HandsOut self.old.waiting (record { ip = ip; port = port }) result }
        ensures after { self.new ≡ dial_after self.old (record { ip = ip; port = port }) result }
    {
        if self.calls == u64::MAX || self.room == usize::MAX {
            return Err(PortError::OutOfMemory);
        }
        if self.links.reserve(self.room + 1).is_err() || self.places.push((ip, port)).is_err() {
            return Err(PortError::OutOfMemory);
        }
        let fails = must_fail(self.waiting.as_slice(), self.failing.as_slice(), self.calls);
        self.calls += 1;
        if fails {
            self.faults += 1;
            return Err(PortError::Failed);
        }
        self.room += 1;
        Ok(self.waiting.remove(0).leading_to(ip, port))
    }

    /// Keeps the link.
    fn done(&mut self, link: MemConn)
        requires { 0 < self.old.room }
        ensures takes_back { TakesBack (Some (dialled_of self.old)) (Some (dialled_of self.new)) (Some link.traffic) }
        ensures room { self.old.room ≤ self.new.room + 1 }
        ensures cause { Counts self.old.faults self.new.faults link.faults }

        ensures after { self.new ≡ done_after self.old link }
    {
        if link.has_failed() {
            self.faults += 1;
        }
        self.room -= 1;
        self.links.push_reserved(link);
    }

    /// A dialler that has the same connections left to hand out, with no link given back and no dial counted.
    fn another(&self) -> Result<MemDial, PortError>
        ensures fresh { IfOk result (λ other. other.faults ≡ 0) }
        ensures anew { IfOk result (λ other. StartsAnew (Some (dialled_of self.now)) (Some (dialled_of other))) }
        ensures memory { IfErr result (λ e. e ≡ PortError.OutOfMemory) }

        ensures copies { IfOk result (λ other. other ≡ another_dial self.now) }
    {
        let alloc = *self.failing.allocator();
        let waiting = copy_all(alloc, self.waiting.as_slice())?;
        MemDial::new(alloc, waiting, self.failing.as_slice())
    }
}

// Equal connections, in the same order.
fn copy_all(alloc: Global, links: &[MemConn]) -> Result<Vec<MemConn>, PortError>
    ensures equal { IfOk result (λ copies. copies.items ≡ links.now) }
    ensures memory { IfErr result (λ e. e ≡ PortError.OutOfMemory) }
{
    let mut copies = Vec::new(alloc);
    for link in links {
        let Ok(copy) = link.copy(alloc) else {
            return Err(PortError::OutOfMemory);
        };
        if copies.push(copy).is_err() {
            return Err(PortError::OutOfMemory);
        }
    }
    Ok(copies)
}
