// Makes a file: its gate is opened last.
ghost use Rattle.std.specs.Prelude.{◌≡◌, ◌<◌, ◌≤◌, ℕ, List, length, OnOk, IfOk, Some, IsErrOf};
ghost use Rattle.actor_ports.specs.Port.{HasCause};
ghost use Rattle.disk_model.specs.Disk.{DiskState, Tells, IsSpent};
ghost use Rattle.tx_journal.specs.Journal.{Makes, IsNew, Shuts, WasShut};
ghost use Rattle.tx_journal.specs.declared.format.Format.{Format};

use crate::format::{Format, front_of};
use actor_ports::PortError;
use disk_model::Disk;

// Puts a closed gate on the disk, as the file's first byte.
pub(crate) fn shut<D: Disk>(disk: &mut D) -> Result<(), PortError>
    ensures crash { (format : Format) → Tells (Shuts format) (D.told disk.old) (D.told disk.new) }
    ensures done { OnOk result (Tells WasShut (D.told disk.old) (D.told disk.new)) }
    ensures memory { IsErrOf result PortError.OutOfMemory → IsSpent (D.disk_faults disk.new) }
    ensures cause { HasCause (D.disk_faults disk.old) (D.disk_faults disk.new) result }
{
    disk.write_at(0, &[0])?;
    disk.sync()
}

// Writes the name and the first gate behind a closed gate, and opens that gate once they are on the disk.
pub(crate) fn make<D: Disk>(disk: &mut D, format: Format) -> Result<(), PortError>
    requires room { (d : DiskState) → D.told disk.old ≡ Some d → 1 ≤ length d.bytes }
    ensures crash { Tells (Makes format) (D.told disk.old) (D.told disk.new) }
    ensures done { OnOk result (Tells (IsNew format) (D.told disk.old) (D.told disk.new)) }
    ensures memory { IsErrOf result PortError.OutOfMemory → IsSpent (D.disk_faults disk.new) }
    ensures cause { HasCause (D.disk_faults disk.old) (D.disk_faults disk.new) result }
{
    let front = front_of(format);
    disk.write_at(1, &front)?;
    disk.sync()?;
    disk.write_at(0, &[1])?;
    disk.sync()
}
