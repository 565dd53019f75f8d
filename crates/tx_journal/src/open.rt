// Opens a file: it is made if that is asked for and it isn't made yet, or read from gate to gate.
ghost use Rattle.std.specs.Prelude.{◌≡◌, ◌<◌, ◌≤◌, ℕ, true, false, List, length, OnOk, IfOk, IfErr, Some, IsErrOf};
ghost use Rattle.actor_ports.specs.Port.{HasCause};
ghost use Rattle.disk_model.specs.Disk.{DiskState, Tells, IsSpent};
ghost use Rattle.disk_model.specs.Crash.{IsDurable};
ghost use Rattle.tx_journal.specs.File.{name, most_bytes, is_made, is_known};
ghost use Rattle.tx_journal.specs.declared.format.Format.TheVariants.{One};
ghost use Rattle.tx_journal.specs.Journal.{Costs, is_to_make, KeepsFile, Opens, Refuses, IsOpenError, Creates, IsCreated};

use crate::error::JournalError;
use crate::format::Format;
use crate::kind::{FileKind, look_at};
use crate::make::{make, shut};
use crate::scan::scan;
use actor_ports::PortError;
use disk_model::Disk;
use std::alloc::Global;

const MOST_BYTES: u64 = 1_073_741_824;

// Makes a file of at most one byte.
fn create_short<D: Disk>(disk: &mut D, format: Format) -> Result<(), PortError>
    requires ready { (d : DiskState) → D.told disk.old ≡ Some d → IsDurable d × (length d.bytes ≤ 1) }
    ensures crash { Tells (Creates format) (D.told disk.old) (D.told disk.new) }
    ensures done { OnOk result (Tells (IsCreated format) (D.told disk.old) (D.told disk.new)) }
    ensures memory { IsErrOf result PortError.OutOfMemory → IsSpent (D.disk_faults disk.new) }
    ensures cause { HasCause (D.disk_faults disk.old) (D.disk_faults disk.new) result }
{
    shut(disk)?;
    make(disk, format)
}

// Makes a file that isn't made.
fn create_file<D: Disk>(disk: &mut D, len: u64, format: Format) -> Result<(), PortError>
    requires ready { (d : DiskState) → D.told disk.old ≡ Some d → IsDurable d × (is_made d.bytes ≡ false) × (len ≡ length d.bytes) }
    ensures crash { Tells (Creates format) (D.told disk.old) (D.told disk.new) }
    ensures done { OnOk result (Tells (IsCreated format) (D.told disk.old) (D.told disk.new)) }
    ensures memory { IsErrOf result PortError.OutOfMemory → IsSpent (D.disk_faults disk.new) }
    ensures cause { HasCause (D.disk_faults disk.old) (D.disk_faults disk.new) result }
{
    if len <= 1 {
        create_short(disk, format)
    } else {
        make(disk, format)
    }
}

// Opens a file of `len` bytes that was synced: makes it if `create` is true and it isn't made, or reads it.
// It answers the offset behind the last gate, and the format.
pub(crate) fn settle_synced<D: Disk>(
    alloc: Global,
    disk: &mut D,
    len: u64,
    create: bool,
    newest: Format,
) -> Result<(u64, Format), JournalError>
    requires ready { (d : DiskState) → D.told disk.old ≡ Some d → IsDurable d × (len ≡ length d.bytes) }
    ensures opened { IfOk result (λ found. Tells (Opens newest create found) (D.told disk.old) (D.told disk.new)) }
    ensures crash { Tells (KeepsFile newest create) (D.told disk.old) (D.told disk.new) }
    ensures refused { IfErr result (λ e. (d : DiskState) → D.told disk.old ≡ Some d → Refuses newest create e d) }
    ensures known { IfOk result (λ found. is_known newest (name found.1) ≡ true) }
    ensures made { IfOk result (λ found. (d : DiskState) → D.told disk.old ≡ Some d → is_to_make create d.bytes ≡ true → found.1 ≡ newest) }
    ensures end { IfOk result (λ found. (9 ≤ found.0) × (found.0 ≤ most_bytes)) }
    ensures errors { IfErr result IsOpenError }
    ensures cause { Costs (D.disk_faults disk.old) (D.disk_faults disk.new) result }
{
    if len > MOST_BYTES {
        return Err(JournalError::Full { len });
    }
    match look_at(alloc, disk, newest)? {
        FileKind::Unmade => {
            if !create {
                return Err(JournalError::Damaged { offset: 0 });
            }
            match create_file(disk, len, newest) {
                Ok(()) => Ok((9, newest)),
                Err(_) => Err(JournalError::DiskFault),
            }
        }
        FileKind::Other => Err(JournalError::Damaged { offset: 1 }),
        FileKind::Journal(format) => {
            if len < 8 {
                return Err(JournalError::Damaged { offset: 1 });
            }
            match scan(alloc, disk, len) {
                Ok(end) => Ok((end, format)),
                Err(error) => Err(error),
            }
        }
    }
}

// Opens a file of its own, as a crash may have left it: syncs it, and makes or reads it.
pub(crate) fn settle<D: Disk>(
    alloc: Global,
    disk: &mut D,
    create: bool,
) -> Result<(u64, Format), JournalError>
    ensures opened { IfOk result (λ found. Tells (Opens One create found) (D.told disk.old) (D.told disk.new)) }
    ensures crash { Tells (KeepsFile One create) (D.told disk.old) (D.told disk.new) }
    ensures refused { IfErr result (λ e. (d : DiskState) → D.told disk.old ≡ Some d → Refuses One create e d) }
    ensures format { IfOk result (λ found. found.1 ≡ One) }
    ensures end { IfOk result (λ found. (9 ≤ found.0) × (found.0 ≤ most_bytes)) }
    ensures errors { IfErr result IsOpenError }
    ensures cause { Costs (D.disk_faults disk.old) (D.disk_faults disk.new) result }
{
    if disk.sync().is_err() {
        return Err(JournalError::DiskFault);
    }
    let len = match disk.len() {
        Ok(len) => len,
        Err(error) => return Err(error.into()),
    };
    settle_synced(alloc, disk, len, create, Format::One)
}
