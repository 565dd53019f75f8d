// Opens two files: both are synced, and the live one is found and read, or made.
ghost use Rattle.std.specs.Prelude.{◌≡◌, ◌<◌, ◌≤◌, ℕ, true, length, OnOk, IfOk, IfErr, Some};
ghost use Rattle.disk_model.specs.Disk.{DiskState, Tells};
ghost use Rattle.tx_journal.specs.declared.format.Format.TheVariants.{Two};
ghost use Rattle.tx_journal.specs.File.{most_bytes};
ghost use Rattle.tx_journal.specs.Pair.{Files};
ghost use Rattle.tx_journal.specs.Journal.{Costs, IsOpenError, IsPortFault};
ghost use Rattle.tx_journal.specs.Calls.{tell_both, is_making, OpensFiles, RefusesFiles, KeepsFiles};
ghost use Rattle.tx_journal.specs.Seen.{Sees, is_second_seen};
ghost use Rattle.tx_journal.specs.Found.{Synced, IsSynced, IsFound, CostsBoth, is_closed_seen};

use crate::error::JournalError;
use crate::format::Format;
use crate::kind::FileKind;
use crate::open::settle_synced;
use crate::survey::{Seen, is_second_newer, survey};
use disk_model::Disk;
use std::alloc::Global;

// What an opening of two files found.
#[derive(Clone, Copy)]
pub(crate) struct Found {
    pub(crate) is_second_live: bool,
    pub(crate) format: Format,
    pub(crate) generation: Option<u64>,
    pub(crate) end: u64,
    pub(crate) is_shut: bool,
}

// Syncs both disks.
fn sync_both<D: Disk>(first: &mut D, second: &mut D) -> Result<(), JournalError>
    ensures first { Tells Synced (D.told first.old) (D.told first.new) }
    ensures second { Tells Synced (D.told second.old) (D.told second.new) }
    ensures first_done { OnOk result (Tells IsSynced (D.told first.old) (D.told first.new)) }
    ensures second_done { OnOk result (Tells IsSynced (D.told second.old) (D.told second.new)) }
    ensures errors { IfErr result (λ e. e ≡ JournalError.DiskFault) }
    ensures cause { CostsBoth (D.disk_faults first.old) (D.disk_faults first.new) (D.disk_faults second.old) (D.disk_faults second.new) result }
{
    if first.sync().is_err() {
        return Err(JournalError::DiskFault);
    }
    if second.sync().is_err() {
        return Err(JournalError::DiskFault);
    }
    Ok(())
}

// Looks at both files.
fn survey_both<D: Disk>(
    alloc: Global,
    first: &mut D,
    second: &mut D,
) -> Result<(Seen, Seen), JournalError>
    ensures first { (d : DiskState) → D.told first.old ≡ Some d → IfOk result (λ seen. Sees d seen.0) }
    ensures second { (d : DiskState) → D.told second.old ≡ Some d → IfOk result (λ seen. Sees d seen.1) }
    ensures errors { IfErr result IsPortFault }
    ensures same_first { D.told first.new ≡ D.told first.old }
    ensures same_second { D.told second.new ≡ D.told second.old }
    ensures cause { CostsBoth (D.disk_faults first.old) (D.disk_faults first.new) (D.disk_faults second.old) (D.disk_faults second.new) result }
{
    let a = survey(alloc, first)?;
    let b = survey(alloc, second)?;
    Ok((a, b))
}

// Whether the file isn't made but has at least two bytes, so that its gate is closed.
fn is_closed(seen: &Seen) -> bool
    ensures { result ≡ is_closed_seen seen.now }
{
    matches!(seen.kind, FileKind::Unmade) && seen.len >= 2
}

// Opens two files as a crash may have left them: syncs both, and reads or makes the live one.
pub(crate) fn settle_pair<D: Disk>(
    alloc: Global,
    first: &mut D,
    second: &mut D,
    create: bool,
) -> Result<Found, JournalError>
    ensures opened { IfOk result (λ found. Tells (OpensFiles create) (tell_both (D.told first.old) (D.told second.old)) (tell_both (D.told first.new) (D.told second.new))) }
    ensures crash { Tells (KeepsFiles create) (tell_both (D.told first.old) (D.told second.old)) (tell_both (D.told first.new) (D.told second.new)) }
    ensures refused { IfErr result (λ e. (files : Files) → tell_both (D.told first.old) (D.told second.old) ≡ Some files → RefusesFiles create e files) }
    ensures made { IfOk result (λ found. (files : Files) → tell_both (D.told first.old) (D.told second.old) ≡ Some files → is_making create files.first files.second ≡ true → found.format ≡ Two) }
    ensures found { IfOk result (λ found. IsFound found (D.told first.new) (D.told second.new)) }
    ensures end { IfOk result (λ found. (9 ≤ found.end) × (found.end ≤ most_bytes)) }
    ensures errors { IfErr result IsOpenError }
    ensures cause { CostsBoth (D.disk_faults first.old) (D.disk_faults first.new) (D.disk_faults second.old) (D.disk_faults second.new) result }
{
    sync_both(first, second)?;
    let (a, b) = survey_both(alloc, first, second)?;
    if is_second_newer(&a, &b) {
        return match settle_synced(alloc, second, b.len, create, Format::Two) {
            Ok((end, format)) => Ok(Found {
                is_second_live: true,
                format,
                generation: b.generation,
                end,
                is_shut: is_closed(&a),
            }),
            Err(error) => Err(error),
        };
    }
    match settle_synced(alloc, first, a.len, create, Format::Two) {
        Ok((end, format)) => Ok(Found {
            is_second_live: false,
            format,
            generation: a.generation,
            end,
            is_shut: is_closed(&b),
        }),
        Err(error) => Err(error),
    }
}
