// What an opening reads: the payloads one after another, up to the first that has no reading.
ghost use Rattle.std.specs.Prelude.{◌≡◌, ◌↔◌, ◌+◌, false, length, is_some, IfOk, IfErr, IfSome, OnOk};
ghost use Rattle.store_payloads.specs.Fits.{TablesFit};
ghost use Rattle.store_payloads.specs.Folds.{start};
ghost use Rattle.tx_journal.specs.Calls.{is_alone};
ghost use Rattle.tx_journal.specs.Journal.{Costs, IsPortFault};
ghost use Rattle.store_core.specs.Contents.{is_old};
ghost use Rattle.store_core.specs.Migrations.{HasNumber};
ghost use Rattle.store_core.specs.Opens.{first_place, HasForm, IsFolded, IsFoldFault};

use crate::ending::end;
use disk_model::Disk;
use std::alloc::Global;
use store_payloads::StoreFold;
use store_tables::StoreTables;
use tx_journal::{Journal, JournalError};

// The format in which payloads have no spaces.
const FIRST: u8 = 1;

// The offset of the first payload that is folded: behind name, gate and length, or behind a Generation.
fn first_place(is_snapshot: bool) -> u64
    ensures { result ≡ first_place is_snapshot }
{
    if is_snapshot { 35 } else { 13 }
}

// The offset of the payload behind one.
fn place_behind(at: u64, payload: &[u8]) -> Option<u64>
    ensures { IfSome result (λ next. next ≡ at + 5 + length payload.now) }
{
    at.checked_add(5)?.checked_add(payload.len() as u64)
}

// What a reading answers in place of an error of the journal: its disk failed, or there was no memory.
fn read_fault(error: JournalError) -> JournalError
    ensures kind { IsPortFault result }
    ensures fault { (result ≡ JournalError.DiskFault) ↔ (error ≡ JournalError.DiskFault) }
{
    match error {
        JournalError::DiskFault => JournalError::DiskFault,
        _ => JournalError::OutOfMemory,
    }
}

// Whether the payloads of an opened journal are of the first form: the name of its live file tells it.
fn is_first_form<D: Disk>(journal: &Journal<D>) -> bool
    requires { journal.now.is_broken ≡ false }
    ensures format { result ≡ is_old journal.now.format }
    ensures form { HasForm result journal.now }
{
    journal.format() == FIRST
}

// Takes the payloads of an opened journal, one after another; `Damaged` at the first one that has no reading.
fn fold_all<D: Disk>(
    alloc: Global,
    journal: &mut Journal<D>,
    fold: &mut StoreFold,
    is_first: bool,
) -> Result<(), JournalError>
    requires works { journal.old.is_broken ≡ false }
    requires pair { is_alone journal.old.other ≡ false }
    requires form { HasForm is_first journal.old }
    requires start { fold.old ≡ start (is_some journal.old.generation) }
    requires fits { TablesFit fold.old.tables }
    ensures read { OnOk result (IsFolded fold.new.tables journal.old) }
    ensures fits { OnOk result (TablesFit fold.new.tables) }
    ensures fault { IfErr result (λ e. IsFoldFault e journal.old) }
    ensures same { journal.new ≡ record journal.old { live = record { told = journal.old.live.told; faults = journal.new.live.faults }; is_broken = journal.new.is_broken } }
    ensures unbroken { OnOk result (journal.new.is_broken ≡ false) }
    ensures cause { Costs journal.old.live.faults journal.new.live.faults result }
{
    let mut at = first_place(journal.generation().is_some());
    for index in 0..u64::MAX {
        let payload = match journal.replay(alloc, index) {
            Ok(Some(payload)) => payload,
            Ok(None) => return Ok(()),
            Err(error) => return Err(read_fault(error)),
        };
        let Ok(taken) = fold.take(payload.as_slice(), is_first) else {
            return Err(JournalError::OutOfMemory);
        };
        if !taken {
            return Err(JournalError::Damaged { offset: at });
        }
        let Some(next) = place_behind(at, payload.as_slice()) else {
            return Err(JournalError::OutOfMemory);
        };
        at = next;
    }
    // No file has so many payloads.
    Err(JournalError::OutOfMemory)
}

/// The tables that the payloads of an opened journal lead to; `Damaged` at the first one that has no reading.
pub(crate) fn read_tables<D: Disk>(
    alloc: Global,
    journal: &mut Journal<D>,
) -> Result<StoreTables, JournalError>
    requires works { journal.old.is_broken ≡ false }
    requires pair { is_alone journal.old.other ≡ false }
    ensures read { IfOk result (λ t. IsFolded t.tables journal.old) }
    ensures number { IfOk result (λ t. HasNumber journal.old) }
    ensures fits { IfOk result (λ t. TablesFit t.tables) }
    ensures fault { IfErr result (λ e. IsFoldFault e journal.old) }
    ensures same { journal.new ≡ record journal.old { live = record { told = journal.old.live.told; faults = journal.new.live.faults }; is_broken = journal.new.is_broken } }
    ensures unbroken { IfOk result (λ t. journal.new.is_broken ≡ false) }
    ensures cause { Costs journal.old.live.faults journal.new.live.faults result }
{
    let is_first = is_first_form(journal);
    let mut fold = StoreFold::new(alloc, journal.generation().is_some());
    match fold_all(alloc, journal, &mut fold, is_first) {
        Ok(()) => Ok(fold.into_tables()),
        Err(error) => {
            end(fold);
            Err(error)
        }
    }
}
