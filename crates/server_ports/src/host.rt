// The trait of a host.
ghost use Rattle.std.specs.Prelude.{◌≡◌, ◌<◌, ◌+◌, ◌↔◌, ℕ, Option, IfOk, OnOk, IsTrue};
ghost use Rattle.actor_ports.specs.Port.{HasCause};
ghost use Rattle.actor_ports.specs.Traffic.{Counts};
ghost use Rattle.server_ports.specs.Hosts.{Asked, AsksPath, AsksPlace, Handed, Hands, back_with, given_by, out_after, place_of};

use actor_names::Address;
use actor_ports::{Listen, PortError};
use disk_model::Disk;

/// What opens the disks and binds the ports of a server, and takes them back when the server ends.
pub trait Host: Drop {
    type Store: Disk + Drop + Send;

    type Port: Listen;

    /// How often opening a disk has failed so far, and how many disks that had failed were given back.
    ghost open_faults: { Self → ℕ };

    /// The same of binding ports.
    ghost bind_faults: { Self → ℕ };

    /// How many disks are out: opened, and not yet given back.
    ghost disks_out: { Self → ℕ };

    /// The same of ports.
    ghost ports_out: { Self → ℕ };

    /// What was asked for so far, if the host reports it.
    ghost asked: { Self → Option Asked };

    /// The disks given out and given back so far, each with what it told then, if the host reports them.
    ghost handed: { Self → Option Handed };

    /// Opens the disk at a path, for reading and writing; if there is none, it is made if `create` says so, and else the
    /// call fails. The disk has no fault yet.
    fn open_disk(&mut self, path: &str, create: bool) -> Result<Self::Store, PortError>
        ensures fresh { IfOk result (λ d. Self.Store.disk_faults d ≡ 0) }
        ensures asks { AsksPath (asked self.old) (asked self.new) path.now result }
        ensures gives { Hands (handed self.old) (given_by Self.Store.told path.now create result) (handed self.new) }
        ensures out { disks_out self.new ≡ out_after (disks_out self.old) result }
        ensures cause { HasCause (open_faults self.old) (open_faults self.new) result }
        ensures quiet { OnOk result (open_faults self.new ≡ open_faults self.old) }
        ensures ports { (ports_out self.new ≡ ports_out self.old) × (bind_faults self.new ≡ bind_faults self.old) };

    /// Binds the port of an address. The listener has no fault yet.
    fn bind(&mut self, at: &Address) -> Result<Self::Port, PortError>
        ensures fresh { IfOk result (λ p. Self.Port.listen_faults p ≡ 0) }
        ensures asks { AsksPlace (asked self.old) (asked self.new) (place_of at.now) result }
        ensures hands { handed self.new ≡ handed self.old }
        ensures out { ports_out self.new ≡ out_after (ports_out self.old) result }
        ensures cause { HasCause (bind_faults self.old) (bind_faults self.new) result }
        ensures quiet { OnOk result (bind_faults self.new ≡ bind_faults self.old) }
        ensures disks { (disks_out self.new ≡ disks_out self.old) × (open_faults self.new ≡ open_faults self.old) };

    /// Takes a disk back. It needs no memory and can't fail; a disk that failed counts as a fault of opening.
    fn done_disk(&mut self, disk: Self::Store)
        requires { 0 < disks_out self.old }
        ensures asks { asked self.new ≡ asked self.old }
        ensures takes { Hands (handed self.old) (back_with (Self.Store.told disk)) (handed self.new) }
        ensures out { disks_out self.old ≡ disks_out self.new + 1 }
        ensures cause { Counts (open_faults self.old) (open_faults self.new) (Self.Store.disk_faults disk) }
        ensures ports { (ports_out self.new ≡ ports_out self.old) × (bind_faults self.new ≡ bind_faults self.old) };

    /// Takes a port back. It needs no memory and can't fail; a port that failed counts as a fault of binding.
    fn done_port(&mut self, port: Self::Port)
        requires { 0 < ports_out self.old }
        ensures asks { asked self.new ≡ asked self.old }
        ensures hands { handed self.new ≡ handed self.old }
        ensures out { ports_out self.old ≡ ports_out self.new + 1 }
        ensures cause { Counts (bind_faults self.old) (bind_faults self.new) (Self.Port.listen_faults port) }
        ensures disks { (disks_out self.new ≡ disks_out self.old) × (open_faults self.new ≡ open_faults self.old) };

    /// Whether a call of this disk has failed so far.
    fn disk_failed(disk: &Self::Store) -> bool
        ensures { IsTrue result ↔ (0 < Self.Store.disk_faults disk.now) };

    /// Whether an accept of this port has failed so far.
    fn port_failed(port: &Self::Port) -> bool
        ensures { IsTrue result ↔ (0 < Self.Port.listen_faults port.now) };
}
