// What the first bytes of a file say about it.
ghost use Rattle.std.specs.Prelude.{◌≡◌, ◌≤◌, ℕ, length, take, drop, IfOk, IfErr, Some};
ghost use Rattle.disk_model.specs.Disk.{DiskState};
ghost use Rattle.tx_journal.specs.Journal.{Costs, IsKind, IsKnownKind, LooksLike, IsPortFault};

use crate::error::JournalError;
use crate::format::Format;
use crate::scan::read_at;
use disk_model::Disk;
use std::alloc::Global;

// What the first eight bytes of a file say.
#[derive(Clone, Copy)]
pub(crate) enum FileKind {
    Unmade,
    Other,
    Journal(Format),
}

const FIRST_NAME: &[u8] = b"ACTJRN1";

const SECOND_NAME: &[u8] = b"ACTJRN2";

fn kind_of(front: &[u8], newest: Format) -> FileKind
    ensures { IsKind newest front.now result }
{
    if front.len() < 2 || front[0] != 1 {
        return FileKind::Unmade;
    }
    let name = &front[1..];
    match newest {
        _ if name == FIRST_NAME => FileKind::Journal(Format::One),
        Format::Two if name == SECOND_NAME => FileKind::Journal(Format::Two),
        _ => FileKind::Other,
    }
}

// What the first eight bytes of a file say to a journal that knows the formats up to `newest`.
pub(crate) fn look_at<D: Disk>(
    alloc: Global,
    disk: &mut D,
    newest: Format,
) -> Result<FileKind, JournalError>
    ensures looks { (d : DiskState) → D.told disk.old ≡ Some d → IfOk result (LooksLike newest d) }
    ensures known { IfOk result (IsKnownKind newest) }
    ensures errors { IfErr result IsPortFault }
    ensures same { D.told disk.new ≡ D.told disk.old }
    ensures cause { Costs (D.disk_faults disk.old) (D.disk_faults disk.new) result }
{
    let mut front = Vec::new(alloc);
    read_at(disk, 0, 8, &mut front)?;
    Ok(kind_of(&front, newest))
}
