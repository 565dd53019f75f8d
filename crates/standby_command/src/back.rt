// What a standby that has ended gives back, and how the command ends with it.
ghost use Rattle.std.specs.Prelude.{◌≡◌, ◌≢◌, ◌<◌, ◌≤◌, ◌+◌, false, [], ◌∷◌, IsTrue};
ghost use Rattle.server_ports.specs.Hosts.{Hands};
ghost use Rattle.standby_command.specs.Runs.{IsUnserved, given_back};

use crate::command::StandbyEnd;
use actor_ports::PortError;
use server_ports::Host;

/// Gives back a disk, and answers whether it has failed.
pub(crate) fn give_back<H: Host>(host: &mut H, disk: H::Store) -> bool
    requires { 0 < H.disks_out host.old }
    ensures failed { IsTrue result → H.open_faults host.old < H.open_faults host.new }
    ensures counts { 0 < H.Store.disk_faults disk → IsTrue result }
    ensures quiet { result ≡ false → H.open_faults host.new ≡ H.open_faults host.old }
    ensures never_falls { H.open_faults host.old ≤ H.open_faults host.new }
    ensures out { H.disks_out host.old ≡ H.disks_out host.new + 1 }
    ensures ports { (H.ports_out host.new ≡ H.ports_out host.old) × (H.bind_faults host.new ≡ H.bind_faults host.old) }
    ensures asks { H.asked host.new ≡ H.asked host.old }
    ensures hands { Hands (H.handed host.old) (given_back (H.Store.told disk ∷ [])) (H.handed host.new) }
{
    let failed = H::disk_failed(&disk);
    host.done_disk(disk);
    failed
}

/// How the command ends if its port isn't bound.
pub(crate) fn unbound(error: PortError) -> StandbyEnd
    ensures port { result ≡ StandbyEnd.PortFault → error ≡ PortError.Failed }
    ensures others { (result ≢ StandbyEnd.Done) × (result ≢ StandbyEnd.DiskFault) }
    ensures unserved { IsUnserved result }
{
    match error {
        PortError::Failed => StandbyEnd::PortFault,
        PortError::OutOfMemory => StandbyEnd::OutOfMemory,
    }
}
