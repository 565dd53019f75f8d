// The steps of a compaction on the file that isn't live.
ghost use Rattle.std.specs.Prelude.{◌≡◌, ◌≤◌, ◌<◌, ◌^◌, ℕ, ◌+◌, ◌-◌, ◌∷◌, [], ◌++◌, length, OnOk, Some, IsErrOf};
ghost use Rattle.actor_ports.specs.Port.{HasCause};
ghost use Rattle.disk_model.specs.Disk.{DiskState, Tells, IsSpent};
ghost use Rattle.disk_model.specs.Crash.{IsDurable};
ghost use Rattle.tx_journal.specs.declared.format.Format.TheVariants.{Two};
ghost use Rattle.tx_journal.specs.File.{name, framed};
ghost use Rattle.tx_journal.specs.Pair.{generation_row};
ghost use Rattle.tx_journal.specs.Compaction.{StaysUnmade, Finishes, IsFinished, MayBeShut, MayStart, Closes, IsClosed, WritesFront, Begins, HasBegunFile, AddsRow};

use actor_ports::PortError;
use disk_model::Disk;

// Closes the gate of the file that isn't live. A gate that is closed already isn't written again: a torn write could
// leave a 1 in it after a crash.
fn close_gate<D: Disk>(disk: &mut D) -> Result<(), PortError>
    requires { (d : DiskState) → D.told disk.old ≡ Some d → IsDurable d × MayBeShut d.bytes }
    ensures crash { Tells Closes (D.told disk.old) (D.told disk.new) }
    ensures done { OnOk result (Tells IsClosed (D.told disk.old) (D.told disk.new)) }
    ensures memory { IsErrOf result PortError.OutOfMemory → IsSpent (D.disk_faults disk.new) }
    ensures cause { HasCause (D.disk_faults disk.old) (D.disk_faults disk.new) result }
{
    disk.write_at(0, &[0])?;
    disk.sync()
}

// Cuts the file to its first byte, and writes the name and the first record.
fn write_front<D: Disk>(disk: &mut D, front: &[u8]) -> Result<(), PortError>
    requires { (d : DiskState) → D.told disk.old ≡ Some d → 1 ≤ length d.bytes }
    ensures crash { Tells StaysUnmade (D.told disk.old) (D.told disk.new) }
    ensures done { OnOk result (Tells (WritesFront front.now) (D.told disk.old) (D.told disk.new)) }
    ensures memory { IsErrOf result PortError.OutOfMemory → IsSpent (D.disk_faults disk.new) }
    ensures cause { HasCause (D.disk_faults disk.old) (D.disk_faults disk.new) result }
{
    disk.cut(1)?;
    disk.write_at(1, front)
}

// The name, an open gate, the Generation's record, and a closed gate.
fn front_row(number: u64) -> [u8; 30]
    ensures { result ≡ name Two ++ 1 ∷ framed (generation_row number) ++ 0 ∷ [] }
{
    let [a, b, c, d, e, f, g, h] = number.to_be_bytes();
    [
        b'A', b'C', b'T', b'J', b'R', b'N', b'2', 1, 0, 0, 0, 17, 0, 0, 0, 0, 0, 0, 0, 0, 128, a,
        b, c, d, e, f, g, h, 0,
    ]
}

// Starts a compaction: closes the gate unless it is closed already, and writes the first row.
pub(crate) fn begin<D: Disk>(disk: &mut D, is_shut: bool, number: u64) -> Result<(), PortError>
    requires ready { (d : DiskState) → D.told disk.old ≡ Some d → MayStart is_shut d }
    ensures crash { Tells (Begins is_shut) (D.told disk.old) (D.told disk.new) }
    ensures done { OnOk result (Tells (HasBegunFile is_shut number) (D.told disk.old) (D.told disk.new)) }
    ensures memory { IsErrOf result PortError.OutOfMemory → IsSpent (D.disk_faults disk.new) }
    ensures cause { HasCause (D.disk_faults disk.old) (D.disk_faults disk.new) result }
{
    let front = front_row(number);
    if is_shut {
        return write_front(disk, &front);
    }
    close_gate(disk)?;
    write_front(disk, &front)
}

// Writes one more record over the closed gate at `at - 1`: an open gate, the record, and a closed gate behind it.
pub(crate) fn add<D: Disk>(disk: &mut D, at: u64, bytes: &[u8]) -> Result<(), PortError>
    requires some { 2 ≤ at }
    requires within { (d : DiskState) → D.told disk.old ≡ Some d → at ≤ length d.bytes }
    ensures crash { Tells StaysUnmade (D.told disk.old) (D.told disk.new) }
    ensures done { OnOk result (Tells (AddsRow at bytes.now) (D.told disk.old) (D.told disk.new)) }
    ensures memory { IsErrOf result PortError.OutOfMemory → IsSpent (D.disk_faults disk.new) }
    ensures cause { HasCause (D.disk_faults disk.old) (D.disk_faults disk.new) result }
{
    disk.write_at(at - 1, bytes)
}

// Puts everything on the disk, and then opens the file's gate: the file is live from then on.
pub(crate) fn finish<D: Disk>(disk: &mut D) -> Result<(), PortError>
    ensures crash { Tells Finishes (D.told disk.old) (D.told disk.new) }
    ensures done { OnOk result (Tells IsFinished (D.told disk.old) (D.told disk.new)) }
    ensures memory { IsErrOf result PortError.OutOfMemory → IsSpent (D.disk_faults disk.new) }
    ensures cause { HasCause (D.disk_faults disk.old) (D.disk_faults disk.new) result }
{
    disk.sync()?;
    disk.write_at(0, &[1])?;
    disk.sync()
}
