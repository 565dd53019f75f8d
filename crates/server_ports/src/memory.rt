// A host over given disks and listeners.
ghost use Rattle.std.specs.Prelude.{◌≡◌, ◌<◌, ◌≤◌, ◌+◌, ◌⊎◌, Some, IfOk, OnOk, IfErr, IsErrOf, IsTrue, false, Contains, length, map, string_bytes};
ghost use Rattle.actor_ports.specs.Port.{HasCause};
ghost use Rattle.actor_ports.specs.Traffic.{Counts};
ghost use Rattle.server_ports.specs.Hosts.{AsksPath, AsksPlace, HandsOut, Hands, back_with, given_by, handed_by, new_host, out_after, place_of, opened_after, bound_after, disk_back, port_back};

use crate::disk::HostDisk;
use crate::host::Host;
use crate::port::HostPort;
use actor_names::Address;
use actor_ports::{Listen, PortError};
use disk_model::Disk;
use std::alloc::Global;
use std::marker::Model;
use std::snapshot::Snapshot;

// A disk that was given out: for which path, whether it was to be made, and as it was.
#[derive(Drop)]
struct Opening<D: Disk + Drop + Send> {
    path: String,
    create: bool,
    disk: Snapshot<D>,
}

/// A host that gives out given disks and given listeners, of any kind, each kind in order, and keeps those that are given back. A
/// call fails if its number was given, or if nothing is left to give.
///
/// For tests: it reports what it was asked for, and its disks. Calls of `open_disk` and `bind` are numbered together, from 1; one that
/// answers `OutOfMemory` has no number. `create` is told, and makes no difference.
#[derive(Drop)]
pub struct MemHost<D: Disk + Drop + Send, L: Listen + Drop + Send> {
    paths: Vec<String>,
    places: Vec<Address>,
    opened: Vec<Opening<D>>,
    disks: Vec<D>,
    ports: Vec<L>,
    back_disks: Vec<HostDisk<D>>,
    back_ports: Vec<HostPort<L>>,
    disks_out: usize,
    ports_out: usize,
    disk_faults: u128,
    port_faults: u128,
    calls: u64,
    failing: Vec<u64>,
}

impl<D: Disk + Drop + Send, L: Listen + Drop + Send> Model for MemHost<D, L> {
    ghost use Rattle.std.specs.Prelude.{◌≤◌, ◌+◌, map, vec_len, vec_capacity, string_bytes};
    ghost use Rattle.server_ports.specs.Hosts.{HostMemory, place_of};

    ghost Value = { HostMemory D L };

    ghost view = { λ s. record {
      asked = record { paths = map string_bytes s.paths.items; places = map place_of s.places.items };
      opened = map (λ o. record { path = string_bytes o.path; create = o.create; state = D.told o.disk.value }) s.opened.items;
      disks = s.disks.items;
      ports = s.ports.items;
      back_disks = s.back_disks.items;
      back_ports = s.back_ports.items;
      counts = record { disks = record { out = s.disks_out; faults = s.disk_faults }; ports = record { out = s.ports_out; faults = s.port_faults } };
      calls = s.calls;
      failing = s.failing.items;
    } };

    ghost invariant = { λ s.
        (vec_len s.back_disks + s.disks_out ≤ vec_capacity s.back_disks)
        × (vec_len s.back_ports + s.ports_out ≤ vec_capacity s.back_ports)
        × (s.disk_faults ≤ s.calls + vec_len s.back_disks)
        × (s.port_faults ≤ s.calls + vec_len s.back_ports) };
}

// Whether a call that comes after `calls` calls is to fail: its number is listed, or nothing is left to give.
fn must_fail(left: usize, failing: &[u64], calls: u64) -> bool
    requires { calls < u64.MAX }
    ensures cause { IsTrue result → (Contains failing.now (calls + 1) ⊎ (left ≡ 0)) }
    ensures listed { result ≡ false → ¬ (Contains failing.now (calls + 1)) }
    ensures left { result ≡ false → 0 < left }
{
    left == 0 || failing.contains(&(calls + 1))
}

impl<D: Disk + Drop + Send, L: Listen + Drop + Send> MemHost<D, L> {
    /// A host of these disks and listeners, whose calls with the numbers in `failing` are to fail. The only error is
    /// `OutOfMemory`.
    pub fn new(
        alloc: Global,
        disks: Vec<D>,
        ports: Vec<L>,
        failing: &[u64],
    ) -> Result<MemHost<D, L>, PortError>
        ensures holds { IfOk result (λ s. s ≡ new_host disks.items ports.items failing.now) }
        ensures memory { IfErr result (λ e. e ≡ PortError.OutOfMemory) }
    {
        let Ok(failing) = Vec::from_slice(alloc, failing) else {
            return Err(PortError::OutOfMemory);
        };
        Ok(MemHost {
            paths: Vec::new(alloc),
            places: Vec::new(alloc),
            opened: Vec::new(alloc),
            disks,
            ports,
            back_disks: Vec::new(alloc),
            back_ports: Vec::new(alloc),
            disks_out: 0,
            ports_out: 0,
            disk_faults: 0,
            port_faults: 0,
            calls: 0,
            failing,
        })
    }

    /// Lends the disks given back, in order.
    pub fn disks(&self) -> &[HostDisk<D>]
        ensures { result.now ≡ self.now.back_disks }
    {
        self.back_disks.as_slice()
    }

    /// Lends the listeners given back, in order.
    pub fn ports(&self) -> &[HostPort<L>]
        ensures { result.now ≡ self.now.back_ports }
    {
        self.back_ports.as_slice()
    }

    /// Lends the paths asked for, in order.
    pub fn paths(&self) -> &[String]
        ensures { map string_bytes result.now ≡ self.now.asked.paths }
    {
        self.paths.as_slice()
    }
}

impl<D: Disk + Drop + Send, L: Listen + Drop + Send> Host for MemHost<D, L> {
    type Store = HostDisk<D>;

    type Port = HostPort<L>;

    ghost open_faults = { λ s. s.counts.disks.faults };

    ghost bind_faults = { λ s. s.counts.ports.faults };

    ghost disks_out = { λ s. s.counts.disks.out };

    ghost ports_out = { λ s. s.counts.ports.out };

    ghost asked = { λ s. Some s.asked };

    ghost handed = { λ s. Some (handed_by D.told s) };

    /// Gives out the next disk, and reserves the room to keep it. It fails exactly if the number of the call is listed or
    /// no disk is left.
    fn open_disk(&mut self, path: &str, create: bool) -> Result<HostDisk<D>, PortError>
        ensures fresh { IfOk result (λ d. d.faults ≡ 0) }
        ensures asks { AsksPath (Some self.old.asked) (Some self.new.asked) path.now result }
        ensures gives { Hands (Some (handed_by D.told self.old)) (given_by (λ d. D.told d.inner) path.now create result) (Some (handed_by D.told self.new)) }
        ensures out { self.new.counts.disks.out ≡ out_after self.old.counts.disks.out result }
        ensures cause { HasCause self.old.counts.disks.faults self.new.counts.disks.faults result }
        ensures quiet { OnOk result (self.new.counts.disks.faults ≡ self.old.counts.disks.faults) }
        ensures ports { (self.new.counts.ports.out ≡ self.old.counts.ports.out) × (self.new.counts.ports.faults ≡ self.old.counts.ports.faults) }

        ensures after { self.new ≡ opened_after (λ d. D.told d.inner) self.old path.now create result }
        ensures hands_out { HandsOut self.old.disks result }
        ensures failed { IsErrOf result PortError.Failed → (Contains self.old.failing (self.old.calls + 1) ⊎ (length self.old.disks ≡ 0)) }
    {
        if self.calls == u64::MAX || self.disks_out == usize::MAX {
            return Err(PortError::OutOfMemory);
        }
        if self.back_disks.reserve(self.disks_out + 1).is_err() {
            return Err(PortError::OutOfMemory);
        }
        let alloc = *self.failing.allocator();
        let (Ok(asked), Ok(path)) = (String::from_str(alloc, path), String::from_str(alloc, path))
        else {
            return Err(PortError::OutOfMemory);
        };
        if self.opened.reserve(1).is_err() || self.paths.push(asked).is_err() {
            return Err(PortError::OutOfMemory);
        }
        let fails = must_fail(
            self.disks.as_slice().len(),
            self.failing.as_slice(),
            self.calls,
        );
        self.calls += 1;
        if fails {
            self.disk_faults += 1;
            return Err(PortError::Failed);
        }
        self.disks_out += 1;
        let disk = self.disks.remove(0);
        let opening = Opening {
            path,
            create,
            disk: Snapshot::of(&disk),
        };
        self.opened.push_reserved(opening);
        Ok(HostDisk { disk, faults: 0 })
    }

    /// Gives out the next listener, and reserves the room to keep it. It fails exactly if the number of the call is listed
    /// or no listener is left.
    fn bind(&mut self, at: &Address) -> Result<HostPort<L>, PortError>
        ensures fresh { IfOk result (λ p. p.faults ≡ 0) }
        ensures asks { AsksPlace (Some self.old.asked) (Some self.new.asked) (place_of at.now) result }
        ensures hands { Some (handed_by D.told self.new) ≡ Some (handed_by D.told self.old) }
        ensures out { self.new.counts.ports.out ≡ out_after self.old.counts.ports.out result }
        ensures cause { HasCause self.old.counts.ports.faults self.new.counts.ports.faults result }
        ensures quiet { OnOk result (self.new.counts.ports.faults ≡ self.old.counts.ports.faults) }
        ensures disks { (self.new.counts.disks.out ≡ self.old.counts.disks.out) × (self.new.counts.disks.faults ≡ self.old.counts.disks.faults) }

        ensures after { self.new ≡ bound_after self.old (place_of at.now) result }
        ensures hands_out { HandsOut self.old.ports result }
        ensures failed { IsErrOf result PortError.Failed → (Contains self.old.failing (self.old.calls + 1) ⊎ (length self.old.ports ≡ 0)) }
    {
        if self.calls == u64::MAX || self.ports_out == usize::MAX {
            return Err(PortError::OutOfMemory);
        }
        if self.back_ports.reserve(self.ports_out + 1).is_err() || self.places.push(*at).is_err() {
            return Err(PortError::OutOfMemory);
        }
        let fails = must_fail(
            self.ports.as_slice().len(),
            self.failing.as_slice(),
            self.calls,
        );
        self.calls += 1;
        if fails {
            self.port_faults += 1;
            return Err(PortError::Failed);
        }
        self.ports_out += 1;
        Ok(HostPort {
            port: self.ports.remove(0),
            faults: 0,
        })
    }

    /// Keeps the disk.
    fn done_disk(&mut self, disk: HostDisk<D>)
        requires { 0 < self.old.counts.disks.out }
        ensures asks { Some self.new.asked ≡ Some self.old.asked }
        ensures takes { Hands (Some (handed_by D.told self.old)) (back_with (D.told disk.inner)) (Some (handed_by D.told self.new)) }
        ensures out { self.old.counts.disks.out ≡ self.new.counts.disks.out + 1 }
        ensures cause { Counts self.old.counts.disks.faults self.new.counts.disks.faults disk.faults }
        ensures ports { (self.new.counts.ports.out ≡ self.old.counts.ports.out) × (self.new.counts.ports.faults ≡ self.old.counts.ports.faults) }

        ensures after { self.new ≡ disk_back self.old disk }
    {
        if disk.faults > 0 {
            self.disk_faults += 1;
        }
        self.disks_out -= 1;
        self.back_disks.push_reserved(disk);
    }

    /// Keeps the listener.
    fn done_port(&mut self, port: HostPort<L>)
        requires { 0 < self.old.counts.ports.out }
        ensures asks { Some self.new.asked ≡ Some self.old.asked }
        ensures hands { Some (handed_by D.told self.new) ≡ Some (handed_by D.told self.old) }
        ensures out { self.old.counts.ports.out ≡ self.new.counts.ports.out + 1 }
        ensures cause { Counts self.old.counts.ports.faults self.new.counts.ports.faults port.faults }
        ensures disks { (self.new.counts.disks.out ≡ self.old.counts.disks.out) × (self.new.counts.disks.faults ≡ self.old.counts.disks.faults) }

        ensures after { self.new ≡ port_back self.old port }
    {
        if port.faults > 0 {
            self.port_faults += 1;
        }
        self.ports_out -= 1;
        self.back_ports.push_reserved(port);
    }

    fn disk_failed(disk: &HostDisk<D>) -> bool {
        disk.faults > 0
    }

    fn port_failed(port: &HostPort<L>) -> bool {
        port.faults > 0
    }
}
