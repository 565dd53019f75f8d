// The store.
ghost use Rattle.std.specs.Prelude.{◌≡◌, ◌≢◌, ◌⊎◌, false, true, None, Some, option_map, IfOk, IfErr, IfSome, IfNone};
ghost use Rattle.disk_model.specs.Disk.{Tells};
ghost use Rattle.frame_wire.specs.Store.{AnswerFits};
ghost use Rattle.frame_wire.specs.StoreParts.{StoreRefusalFits};
ghost use Rattle.store_tables.specs.Tables.{told_in};
ghost use Rattle.store_tables.specs.Contents.{outcome_of};
ghost use Rattle.store_payloads.specs.Laws.{MayCome};
ghost use Rattle.tx_journal.specs.declared.format.Format.TheVariants.{Two};
ghost use Rattle.tx_journal.specs.Journal.{Rises};
ghost use Rattle.tx_journal.specs.Calls.{told, tell_both, is_alone, first_side, second_side, IsOpened};
ghost use Rattle.tx_journal.specs.Pair.{Files};
ghost use Rattle.store_core.specs.Opens.{OpensStore, IsUnchanged, IsMigrated, IsStoreOpenError, RefusesStore, KeepsStore};
ghost use Rattle.store_core.specs.Store.{refusal_by, IsCurrent, Written, Moves};

use crate::ending::end;
use crate::migration::{is_up_to_date, migrate};
use crate::opening::read_tables;
use disk_model::Disk;
use frame_wire::{StoreAnswer, StoreCommand, StoreRefusal};
use std::alloc::Global;
use std::marker::Model;
use store_payloads::{payload_law, write_command_payload};
use store_tables::StoreTables;
use tx_journal::{Batch, Journal, JournalError};

mod compact;
mod list;

/// What a store contains, behind a journal of two files. Contracts see the contents and the journal.
#[derive(Drop)]
pub struct Store<D: Disk> {
    journal: Journal<D>,
    tables: StoreTables,
    alloc: Global,
    batch: Option<Batch>,
}

impl<D: Disk> Model for Store<D> {
    ghost use Rattle.store_core.specs.Store.{StoreState, IsWhole};

    ghost Value = { StoreState };

    ghost view = { λ s. record { contents = s.tables.tables; journal = s.journal } };

    ghost invariant = { λ s. IsWhole s.journal s.tables.tables };
}

// The answer of a refusal.
fn refused(refusal: StoreRefusal) -> StoreAnswer
    ensures is { result ≡ StoreAnswer.Refused refusal }
    ensures fits { StoreRefusalFits refusal → AnswerFits result }
{
    StoreAnswer::Refused { refusal }
}

// The answer of a command that found no memory.
#[tactic(auto, unfolding(wire_fields::specs::Fields::number64))]
fn out_of_memory() -> StoreAnswer
    ensures is { result ≡ StoreAnswer.Refused StoreRefusal.OutOfMemory }
    ensures fits { AnswerFits result }
{
    refused(StoreRefusal::OutOfMemory)
}

// The answer of a store that met a fault.
#[tactic(auto, unfolding(wire_fields::specs::Fields::number64))]
fn reopen() -> StoreAnswer
    ensures is { result ≡ StoreAnswer.Refused StoreRefusal.Reopen }
    ensures fits { AnswerFits result }
{
    refused(StoreRefusal::Reopen)
}

// The answer of a command whose batch met a disk fault.
#[tactic(auto, unfolding(wire_fields::specs::Fields::number64))]
fn disk_fault() -> StoreAnswer
    ensures is { result ≡ StoreAnswer.Refused StoreRefusal.DiskFault }
    ensures fits { AnswerFits result }
{
    refused(StoreRefusal::DiskFault)
}

// What a command is refused for if its record isn't written.
#[tactic(auto, unfolding(wire_fields::specs::Fields::number64))]
fn refusal_by(error: JournalError) -> StoreRefusal
    ensures is { result ≡ refusal_by error }
    ensures fits { StoreRefusalFits result }
{
    match error {
        JournalError::TooLong { n } => StoreRefusal::CommandTooLong { n },
        JournalError::Full { len } => StoreRefusal::Full { len },
        JournalError::DiskFault
        | JournalError::Damaged { .. }
        | JournalError::Reopen
        | JournalError::NotStarted
        | JournalError::OneDisk
        | JournalError::Spent { .. }
        | JournalError::OutOfMemory => StoreRefusal::DiskFault,
    }
}

// Writes a payload; answers why it isn't on the disk.
fn write<D: Disk>(journal: &mut Journal<D>, payload: &[u8]) -> Option<StoreRefusal>
    requires { journal.old.is_broken ≡ false }
    ensures written { Written payload.now result journal.old journal.new }
    ensures fits { IfSome result StoreRefusalFits }
{
    match journal.append(payload) {
        Ok(()) => None,
        Err(error) => Some(refusal_by(error)),
    }
}

// Hands back the two disks of a journal.
fn close_pair<D: Disk>(journal: Journal<D>) -> (D, D)
    requires { is_alone journal.other ≡ false }
    ensures first { record { told = D.told result.0; faults = D.disk_faults result.0 } ≡ first_side journal }
    ensures second { second_side journal ≡ Some record { told = D.told result.1; faults = D.disk_faults result.1 } }
{
    let (first, second) = journal.close();
    match second {
        Some(second) => (first, second),
        None => unreachable!(),
    }
}

impl<D: Disk> Store<D> {
    /// Opens a store of two files. It contains what the payloads of the live one lead to, or nothing if neither is made
    /// and `create` is true. `Damaged` is answered also at the first payload that has no reading.
    ///
    /// The name of the live file tells the form of its payloads. One of the first format is compacted before it answers;
    /// what it contains is in the space `default`. If
    /// that is refused, so is the opening, and `Damaged` at the live file's length stands for `Spent`. A refused opening
    /// hands both disks back, and their live file has the contents that it had.
    pub fn open(
        alloc: Global,
        first: D,
        second: D,
        create: bool,
    ) -> Result<Store<D>, (JournalError, D, D)>
        ensures opened { IfOk result (λ s. Tells (OpensStore create s.contents) (tell_both (D.told first) (D.told second)) (told s.journal)) }
        ensures state { IfOk result (λ s. IsOpened s.journal × (is_alone s.journal.other ≡ false)) }
        ensures current { IfOk result (λ s. IsCurrent s.journal s.contents) }
        ensures format { IfOk result (λ s. s.journal.format ≡ Two) }
        ensures migrated { IfOk result (λ s. IsUnchanged create (tell_both (D.told first) (D.told second)) s.journal ⊎ IsMigrated create (tell_both (D.told first) (D.told second)) s) }
        ensures refused { IfErr result (λ r. IsStoreOpenError r.0 × ((files : Files) → tell_both (D.told first) (D.told second) ≡ Some files → RefusesStore create r.0 files)) }
        ensures crash { IfOk result (λ s. Tells (KeepsStore create) (tell_both (D.told first) (D.told second)) (told s.journal)) }
        ensures crash_refused { IfErr result (λ r. Tells (KeepsStore create) (tell_both (D.told first) (D.told second)) (tell_both (D.told r.1) (D.told r.2))) }
        ensures cause { IfErr result (λ r. r.0 ≡ JournalError.DiskFault → Rises (D.disk_faults first) (D.disk_faults r.1) ⊎ Rises (D.disk_faults second) (D.disk_faults r.2)) }
    {
        let mut journal = match Journal::open_pair(alloc, first, second, create) {
            Ok(journal) => journal,
            Err(refused) => return Err(refused),
        };
        let mut tables = match read_tables(alloc, &mut journal) {
            Ok(tables) => tables,
            Err(error) => {
                let (first, second) = close_pair(journal);
                return Err((error, first, second));
            }
        };
        if is_up_to_date(&journal) {
            return Ok(Store {
                journal,
                tables,
                alloc,
                batch: None,
            });
        }
        match migrate(alloc, &mut journal, &mut tables) {
            Ok(()) => Ok(Store {
                journal,
                tables,
                alloc,
                batch: None,
            }),
            Err(error) => {
                let (first, second) = close_pair(journal);
                Err((error, first, second))
            }
        }
    }

    /// The first disk.
    pub fn disk(&self) -> &D
        ensures { record { told = D.told result.now; faults = D.disk_faults result.now } ≡ first_side self.now.journal }
    {
        self.journal.disk()
    }

    /// The second disk.
    pub fn second(&self) -> Option<&D>
        ensures some { IfSome result (λ d. second_side self.now.journal ≡ Some record { told = D.told d.now; faults = D.disk_faults d.now }) }
        ensures none { IfNone result (second_side self.now.journal ≡ None) }
    {
        self.journal.second()
    }

    /// Ends the store and hands back its disks, as they are. Both are there.
    pub fn close(self) -> (D, Option<D>)
        ensures both { result.1 ≢ None }
        ensures first { record { told = D.told result.0; faults = D.disk_faults result.0 } ≡ first_side self.journal }
        ensures second { option_map (λ d. record { told = D.told d; faults = D.disk_faults d }) result.1 ≡ second_side self.journal }
    {
        let Store { journal, .. } = self;
        journal.close()
    }

    // Takes the memory of a command that is to be accepted, writes it, and changes the tables.
    fn accept(&mut self, command: StoreCommand, now: u64) -> StoreAnswer
        requires may { MayCome (record { now = now; command = command }) }
        requires works { self.old.journal.is_broken ≡ false }
        requires accepted { told_in (outcome_of self.old.contents (record { now = now; command = command })) ≡ None }
        ensures moves { Moves self.old (record { now = now; command = command }) result self.new }
        ensures fits { AnswerFits result }
    {
        payload_law();
        self.tables.order_law();
        let mut payload = Vec::new(self.alloc);
        if write_command_payload(&mut payload, &command, now).is_err() {
            end(command);
            return out_of_memory();
        }
        let Ok(prepared) = self.tables.prepare(command, now) else {
            return out_of_memory();
        };
        if let Some(refusal) = write(&mut self.journal, payload.as_slice()) {
            end(prepared);
            return refused(refusal);
        }
        self.tables.apply(prepared)
    }

    /// Answers a command at `now`, in milliseconds since 1970. An accepted one is on the disk before it is answered.
    pub fn command(&mut self, command: StoreCommand, now: u64) -> StoreAnswer
        requires { MayCome (record { now = now; command = command }) }
        ensures moves { Moves self.old (record { now = now; command = command }) result self.new }
        ensures fits { AnswerFits result }
    {
        payload_law();
        self.tables.order_law();
        if self.journal.is_broken() {
            end(command);
            return reopen();
        }
        match self.tables.told(&command, now) {
            Ok(Some(answer)) => {
                end(command);
                answer
            }
            Ok(None) => self.accept(command, now),
            Err(_) => {
                end(command);
                out_of_memory()
            }
        }
    }
}
