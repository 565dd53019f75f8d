// Opening a journal of two disks.
ghost use Rattle.std.specs.Prelude.{◌≡◌, ◌≤◌, ◌⊎◌, false, Some, IfOk, IfErr};
ghost use Rattle.disk_model.specs.Disk.{Tells};
ghost use Rattle.tx_journal.specs.Pair.{Files};
ghost use Rattle.tx_journal.specs.Journal.{IsOpenError, Rises};
ghost use Rattle.tx_journal.specs.declared.format.Format.TheVariants.{Two};
ghost use Rattle.tx_journal.specs.Calls.{told, tell_both, first_side, second_side, is_alone, KeepsCount, IsOpened, IsNumbered, MakesFormat, OpensFiles, RefusesFiles, KeepsFiles};

use super::Journal;
use crate::batch::ROOM;
use crate::error::JournalError;
use crate::find::FIRST;
use crate::pair::settle_pair;
use crate::record::zeros;
use disk_model::Disk;
use std::alloc::Global;

impl<D: Disk> Journal<D> {
    /// Opens two files. The made one with the greater Generation is live; if the numbers are equal, the first is.
    /// If neither is made and `create` is true, it makes the first. A refused opening hands both disks back.
    pub fn open_pair(
        alloc: Global,
        first: D,
        second: D,
        create: bool,
    ) -> Result<Journal<D>, (JournalError, D, D)>
        ensures opened { IfOk result (λ j. Tells (OpensFiles create) (tell_both (D.told first) (D.told second)) (told j)) }
        ensures state { IfOk result (λ j. IsOpened j × (is_alone j.other ≡ false)) }
        ensures numbered { IfOk result IsNumbered }
        ensures made { IfOk result (MakesFormat Two create (tell_both (D.told first) (D.told second))) }
        ensures refused { IfErr result (λ r. IsOpenError r.0 × ((files : Files) → tell_both (D.told first) (D.told second) ≡ Some files → RefusesFiles create r.0 files)) }
        ensures crash { IfOk result (λ j. Tells (KeepsFiles create) (tell_both (D.told first) (D.told second)) (told j)) }
        ensures crash_refused { IfErr result (λ r. Tells (KeepsFiles create) (tell_both (D.told first) (D.told second)) (tell_both (D.told r.1) (D.told r.2))) }
        ensures cause { IfErr result (λ r. r.0 ≡ JournalError.DiskFault → Rises (D.disk_faults first) (D.disk_faults r.1) ⊎ Rises (D.disk_faults second) (D.disk_faults r.2)) }
        ensures count_first { IfOk result (λ j. D.disk_faults first ≤ (first_side j).faults) }
        ensures count_second { IfOk result (λ j. KeepsCount (D.disk_faults second) (second_side j)) }
    {
        let (mut first, mut second) = (first, second);
        let Ok(buffer) = zeros(alloc, ROOM) else {
            return Err((JournalError::OutOfMemory, first, second));
        };
        let found = match settle_pair(alloc, &mut first, &mut second, create) {
            Ok(found) => found,
            Err(error) => return Err((error, first, second)),
        };
        let (live, other) = if found.is_second_live {
            (second, first)
        } else {
            (first, second)
        };
        Ok(Journal {
            live,
            other: Some(other),
            is_second_live: found.is_second_live,
            format: found.format,
            generation: found.generation,
            end: found.end,
            cursor: FIRST,
            is_shut: found.is_shut,
            staged: None,
            is_broken: false,
            buffer,
        })
    }
}
