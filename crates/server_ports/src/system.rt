// The host over the system's files and TCP.
ghost use Rattle.std.specs.Prelude.{◌≡◌, ◌<◌, ◌≤◌, ◌+◌, ◌-◌, ◌↔◌, None, IfOk, IsTrue, OnOk};
ghost use Rattle.actor_ports.specs.Port.{HasCause};
ghost use Rattle.actor_ports.specs.Traffic.{Counts};
ghost use Rattle.server_ports.specs.Hosts.{HostCounts, none_out, given_out, out_after};

use crate::disk::HostDisk;
use crate::host::Host;
use crate::port::HostPort;
use actor_names::Address;
use actor_ports::{PortError, TcpListen, Waits};
use disk_model::FileDisk;
use std::alloc::Global;
use std::fs::{File, Files, OpenOptions};
use std::marker::Model;
use std::net::{IpAddr, Ipv4Addr, Net, SocketAddr, TcpListener, TcpStream};
use std::os::unix::fs::OpenOptionsExt;
use std::sync::Arc;
use std::sync::atomic::AtomicBool;
use std::time::Clock;

// Opens a file, and locks it: another process, or another disk of this one, that has it open is a failure. A file that is
// made can be read and written by its owner alone.
fn open_alone<S: Files<File = File>>(system: &S, path: &str, create: bool) -> Option<File> {
    let file = OpenOptions::new()
        .read(true)
        .write(true)
        .create(create)
        .mode(0o600)
        .open(system, path)
        .ok()?;
    file.try_lock().ok()?;
    Some(file)
}

/// The system's files and TCP ports. It reports nothing of what was asked for.
///
/// In `main(rt: HostRuntime)`, for connections that fail after a minute without a byte:
/// `let ended = Arc::new(rt.alloc(), AtomicBool::new(false))?;`
/// `let host = SystemHost::new(rt.alloc(), rt, ended, Waits::quiet(60_000));`
#[derive(Drop)]
pub struct SystemHost<
    S: Files<File = File>
        + Net<Listener = TcpListener, Stream = TcpStream>
        + Clock
        + Copy
        + Send
        + Drop,
> {
    alloc: Global,
    system: S,
    ended: Arc<AtomicBool, Global>,
    waits: Waits,
    disks_out: u64,
    disk_faults: u64,
    ports_out: u64,
    port_faults: u64,
}

impl<
    S: Files<File = File>
        + Net<Listener = TcpListener, Stream = TcpStream>
        + Clock
        + Copy
        + Send
        + Drop,
> Model for SystemHost<S> {
    ghost use Rattle.std.specs.Prelude.{◌<◌, ◌+◌, ◌^◌};
    ghost use Rattle.server_ports.specs.Hosts.{HostCounts};

    ghost Value = { HostCounts };

    ghost view = { λ s. record { disks = record { out = s.disks_out; faults = s.disk_faults }; ports = record { out = s.ports_out; faults = s.port_faults } } };

    ghost invariant = { λ s. (s.disk_faults + s.disks_out < 2 ^ 64) × (s.port_faults + s.ports_out < 2 ^ 64) };
}

impl<
    S: Files<File = File>
        + Net<Listener = TcpListener, Stream = TcpStream>
        + Clock
        + Copy
        + Send
        + Drop,
> SystemHost<S> {
    /// A host whose connections wait so, as long as `ended` is false.
    pub fn new(
        alloc: Global,
        system: S,
        ended: Arc<AtomicBool, Global>,
        waits: Waits,
    ) -> SystemHost<S>
        ensures { result ≡ record { disks = none_out; ports = none_out } }
    {
        SystemHost {
            alloc,
            system,
            ended,
            waits,
            disks_out: 0,
            disk_faults: 0,
            ports_out: 0,
            port_faults: 0,
        }
    }
}

impl<
    S: Files<File = File>
        + Net<Listener = TcpListener, Stream = TcpStream>
        + Clock
        + Copy
        + Send
        + Drop,
> Host for SystemHost<S> {
    type Store = HostDisk<FileDisk<File>>;

    type Port = HostPort<TcpListen<TcpListener, S>>;

    ghost open_faults = { λ s. s.disks.faults };

    ghost bind_faults = { λ s. s.ports.faults };

    ghost disks_out = { λ s. s.disks.out };

    ghost ports_out = { λ s. s.ports.out };

    ghost asked = { λ _. None };

    ghost handed = { λ _. None };

    /// Opens the file at the path, as the only one that has it open. When the faults and the disks that are out together reach 2^64 - 1, it answers
    /// `OutOfMemory` and opens nothing.
    fn open_disk(&mut self, path: &str, create: bool) -> Result<HostDisk<FileDisk<File>>, PortError>
        ensures fresh { IfOk result (λ d. d.faults ≡ 0) }
        ensures out { self.new.disks.out ≡ out_after self.old.disks.out result }
        ensures cause { HasCause self.old.disks.faults self.new.disks.faults result }
        ensures quiet { OnOk result (self.new.disks.faults ≡ self.old.disks.faults) }
        ensures ports { (self.new.ports.out ≡ self.old.ports.out) × (self.new.ports.faults ≡ self.old.ports.faults) }

        ensures counts { self.new ≡ record self.old { disks = given_out self.old.disks result } }
    {
        if self.disk_faults >= u64::MAX - self.disks_out {
            return Err(PortError::OutOfMemory);
        }
        let Some(file) = open_alone(&self.system, path, create) else {
            self.disk_faults += 1;
            return Err(PortError::Failed);
        };
        let disk = FileDisk::new(self.alloc, file)?;
        self.disks_out += 1;
        Ok(HostDisk { disk, faults: 0 })
    }

    /// Listens at the address. When the faults and the ports that are out together reach 2^64 - 1, it answers
    /// `OutOfMemory` and binds nothing.
    fn bind(&mut self, at: &Address) -> Result<HostPort<TcpListen<TcpListener, S>>, PortError>
        ensures fresh { IfOk result (λ p. p.faults ≡ 0) }
        ensures out { self.new.ports.out ≡ out_after self.old.ports.out result }
        ensures cause { HasCause self.old.ports.faults self.new.ports.faults result }
        ensures quiet { OnOk result (self.new.ports.faults ≡ self.old.ports.faults) }
        ensures disks { (self.new.disks.out ≡ self.old.disks.out) × (self.new.disks.faults ≡ self.old.disks.faults) }

        ensures counts { self.new ≡ record self.old { ports = given_out self.old.ports result } }
    {
        if self.port_faults >= u64::MAX - self.ports_out {
            return Err(PortError::OutOfMemory);
        }
        let Ok(ended) = Arc::try_clone(&self.ended) else {
            return Err(PortError::OutOfMemory);
        };
        let address = SocketAddr::new(IpAddr::V4(Ipv4Addr::from_bits(at.ip)), at.port);
        let Ok(listener) = self.system.bind(address) else {
            self.port_faults += 1;
            return Err(PortError::Failed);
        };
        self.ports_out += 1;
        Ok(HostPort {
            port: TcpListen::new(self.alloc, self.system, ended, listener, self.waits),
            faults: 0,
        })
    }

    /// Closes the file.
    fn done_disk(&mut self, disk: HostDisk<FileDisk<File>>)
        requires { 0 < self.old.disks.out }
        ensures out { self.old.disks.out ≡ self.new.disks.out + 1 }
        ensures cause { Counts self.old.disks.faults self.new.disks.faults disk.faults }
        ensures ports { (self.new.ports.out ≡ self.old.ports.out) × (self.new.ports.faults ≡ self.old.ports.faults) }
    {
        self.disks_out -= 1;
        if disk.faults > 0 {
            self.disk_faults += 1;
        }
    }

    /// Closes the port.
    fn done_port(&mut self, port: HostPort<TcpListen<TcpListener, S>>)
        requires { 0 < self.old.ports.out }
        ensures out { self.old.ports.out ≡ self.new.ports.out + 1 }
        ensures cause { Counts self.old.ports.faults self.new.ports.faults port.faults }
        ensures disks { (self.new.disks.out ≡ self.old.disks.out) × (self.new.disks.faults ≡ self.old.disks.faults) }
    {
        self.ports_out -= 1;
        if port.faults > 0 {
            self.port_faults += 1;
        }
    }

    fn disk_failed(disk: &HostDisk<FileDisk<File>>) -> bool
        ensures { IsTrue result ↔ (0 < disk.now.faults) }
    {
        disk.faults > 0
    }

    fn port_failed(port: &HostPort<TcpListen<TcpListener, S>>) -> bool
        ensures { IsTrue result ↔ (0 < port.now.faults) }
    {
        port.faults > 0
    }
}
