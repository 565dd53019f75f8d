// What came of the ports of a placement, and the disk that a node gives back.
ghost use Rattle.std.specs.Prelude.{◌≡◌, ◌≢◌, ◌<◌, ◌≤◌, ◌+◌, false, [], ◌∷◌, IsTrue};
ghost use Rattle.server_ports.specs.declared.accept.ServerEnd.TheVariants.{Served};
ghost use Rattle.server_ports.specs.Hosts.{Hands};
ghost use Rattle.tx_journal.specs.Calls.{first_side};
ghost use Rattle.placement_command.specs.Runs.{IsPortsEnd, IsServedEnd, IsUncopied, given_back};

use crate::command::PlacementEnd;
use actor_ports::PortError;
use disk_model::Disk;
use placement_node::PlacementNode;
use server_ports::{Host, ServerEnd};

/// A node whose ports were served, or couldn't be bound, and how the command ends by them.
#[derive(Drop)]
pub(crate) struct NodeBack<D: Disk> {
    pub(crate) node: PlacementNode<D>,
    pub(crate) end: PlacementEnd,
}

/// Gives back the disk of a node, and answers whether it has failed.
pub(crate) fn give_back<H: Host>(host: &mut H, node: PlacementNode<H::Store>) -> bool
    requires { 0 < H.disks_out host.old }
    ensures failed { IsTrue result → H.open_faults host.old < H.open_faults host.new }
    ensures quiet { result ≡ false → H.open_faults host.new ≡ H.open_faults host.old }
    ensures never_falls { H.open_faults host.old ≤ H.open_faults host.new }
    ensures out { H.disks_out host.old ≡ H.disks_out host.new + 1 }
    ensures ports { (H.ports_out host.new ≡ H.ports_out host.old) × (H.bind_faults host.new ≡ H.bind_faults host.old) }
    ensures asks { H.asked host.new ≡ H.asked host.old }
    ensures hands { Hands (H.handed host.old) (given_back ((first_side node.journal).told ∷ [])) (H.handed host.new) }
{
    let (disk, _) = node.close();
    let failed = H::disk_failed(&disk);
    host.done_disk(disk);
    failed
}

/// How the command ends if a port isn't bound, or a standby isn't reached.
pub(crate) fn unbound(error: PortError) -> PlacementEnd
    ensures port { result ≡ PlacementEnd.PortFault → error ≡ PortError.Failed }
    ensures others { result ≢ PlacementEnd.Done }
    ensures ports { IsPortsEnd result }
    ensures either { IsUncopied result }
{
    match error {
        PortError::Failed => PlacementEnd::PortFault,
        PortError::OutOfMemory => PlacementEnd::OutOfMemory,
    }
}

/// How the command ends once its server has, by its ports.
pub(crate) fn ports_end(end: ServerEnd, port_failed: bool) -> PlacementEnd
    ensures cause { result ≡ PlacementEnd.PortFault → IsTrue port_failed }
    ensures done { result ≡ PlacementEnd.Done → (port_failed ≡ false) × (end ≡ Served) }
    ensures ports { IsPortsEnd result }
{
    if port_failed {
        return PlacementEnd::PortFault;
    }
    match end {
        ServerEnd::Served => PlacementEnd::Done,
        _ => PlacementEnd::OutOfMemory,
    }
}

/// How the command ends by its ports, and by whether its disk has failed, which counts first.
pub(crate) fn disk_end(end: PlacementEnd, disk_failed: bool) -> PlacementEnd
    requires { IsPortsEnd end }
    ensures cause { result ≡ PlacementEnd.DiskFault → IsTrue disk_failed }
    ensures port { result ≡ PlacementEnd.PortFault → end ≡ PlacementEnd.PortFault }
    ensures done { result ≡ PlacementEnd.Done → (disk_failed ≡ false) × (end ≡ PlacementEnd.Done) }
    ensures opened { IsServedEnd result }
{
    if disk_failed {
        return PlacementEnd::DiskFault;
    }
    end
}
