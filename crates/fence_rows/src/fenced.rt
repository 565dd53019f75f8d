// The fenced store.
ghost use Rattle.std.specs.Prelude.{◌≡◌, ◌≢◌, ◌⊎◌, ◌<◌, ◌^◌, false, None, Some, option_map, IfOk, IfErr, IfSome, IfNone};
ghost use Rattle.disk_model.specs.Disk.{Tells};
ghost use Rattle.store_payloads.specs.Laws.{MayCome};
ghost use Rattle.tx_journal.specs.declared.format.Format.TheVariants.{Two};
ghost use Rattle.tx_journal.specs.Journal.{Rises};
ghost use Rattle.tx_journal.specs.Calls.{told, tell_both, is_alone, first_side, second_side, IsOpened};
ghost use Rattle.tx_journal.specs.Pair.{Files};
ghost use Rattle.store_core.specs.Opens.{OpensStore, IsUnchanged, IsMigrated, IsStoreOpenError, RefusesStore, KeepsStore};
ghost use Rattle.store_core.specs.Store.{IsCurrent};
ghost use Rattle.store_core.specs.Compacts.{Compacts};
ghost use Rattle.fence_rows.specs.Epochs.{epoch_key};
ghost use Rattle.fence_rows.specs.Fences.{MayFence, HasShortEpoch, SeesEpoch, FencedMoves, FencedAnswerFits};

use crate::epoch::{epoch_in, epoch_key};
use crate::event::{FencedAnswer, FencedCommand};
use crate::operations::with_epoch;
use crate::plain::plain_answer;
use crate::refusals::{refused, tx_refusal};
use actor_names::ActorKey;
use disk_model::Disk;
use frame_wire::{Stamp, StateOps, StoreAnswer, StoreCommand, StoreRefusal};
use std::alloc::Global;
use std::marker::Model;
use store_core::{CompactEnd, Store};
use tx_journal::JournalError;

/// A store whose transactions carry an epoch. Contracts see what it contains and its journal, as of the store within.
#[derive(Drop)]
pub struct Fenced<D: Disk> {
    pub(crate) store: Store<D>,
    alloc: Global,
}

impl<D: Disk> Model for Fenced<D> {
    ghost use Rattle.store_core.specs.Store.{StoreState};

    ghost Value = { StoreState };

    ghost view = { λ f. f.store };
}

impl<D: Disk> Fenced<D> {
    /// Opens a store of two files as `Store::open` does; what it contains has the epochs.
    pub fn open(
        alloc: Global,
        first: D,
        second: D,
        create: bool,
    ) -> Result<Fenced<D>, (JournalError, D, D)>
        ensures opened { IfOk result (λ s. Tells (OpensStore create s.contents) (tell_both (D.told first) (D.told second)) (told s.journal)) }
        ensures state { IfOk result (λ s. IsOpened s.journal × (is_alone s.journal.other ≡ false)) }
        ensures current { IfOk result (λ s. IsCurrent s.journal s.contents) }
        ensures format { IfOk result (λ s. s.journal.format ≡ Two) }
        ensures migrated { IfOk result (λ s. IsUnchanged create (tell_both (D.told first) (D.told second)) s.journal ⊎ IsMigrated create (tell_both (D.told first) (D.told second)) s) }
        ensures refused { IfErr result (λ r. IsStoreOpenError r.0 × ((files : Files) → tell_both (D.told first) (D.told second) ≡ Some files → RefusesStore create r.0 files)) }
        ensures crash { IfOk result (λ s. Tells (KeepsStore create) (tell_both (D.told first) (D.told second)) (told s.journal)) }
        ensures crash_refused { IfErr result (λ r. Tells (KeepsStore create) (tell_both (D.told first) (D.told second)) (tell_both (D.told r.1) (D.told r.2))) }
        ensures cause { IfErr result (λ r. r.0 ≡ JournalError.DiskFault → Rises (D.disk_faults first) (D.disk_faults r.1) ⊎ Rises (D.disk_faults second) (D.disk_faults r.2)) }
    {
        match Store::open(alloc, first, second, create) {
            Ok(store) => Ok(Fenced { store, alloc }),
            Err(refused) => Err(refused),
        }
    }

    /// The first disk.
    pub fn disk(&self) -> &D
        ensures { record { told = D.told result.now; faults = D.disk_faults result.now } ≡ first_side self.now.journal }
    {
        self.store.disk()
    }

    /// The second disk.
    pub fn second(&self) -> Option<&D>
        ensures some { IfSome result (λ d. second_side self.now.journal ≡ Some record { told = D.told d.now; faults = D.disk_faults d.now }) }
        ensures none { IfNone result (second_side self.now.journal ≡ None) }
    {
        self.store.second()
    }

    /// Ends the store and hands back its disks, as they are. Both are there.
    pub fn close(self) -> (D, Option<D>)
        ensures both { result.1 ≢ None }
        ensures first { record { told = D.told result.0; faults = D.disk_faults result.0 } ≡ first_side self.journal }
        ensures second { option_map (λ d. record { told = D.told d; faults = D.disk_faults d }) result.1 ≡ second_side self.journal }
    {
        let Fenced { store, .. } = self;
        store.close()
    }

    // The epoch of an actor, as the store tells the value of its key.
    fn see(&mut self, actor: &ActorKey, now: u64) -> Result<u64, StoreRefusal>
        requires { MayCome (record { now = now; command = StoreCommand.Get actor.now epoch_key }) }
        ensures seen { SeesEpoch self.old actor.now now result }
        ensures same { self.new ≡ self.old }
    {
        let Ok(actor) = actor.copy(self.alloc) else {
            return Err(StoreRefusal::OutOfMemory);
        };
        let Ok(key) = epoch_key(self.alloc) else {
            return Err(StoreRefusal::OutOfMemory);
        };
        match self.store.command(StoreCommand::Get { actor, key }, now) {
            StoreAnswer::Value { value } => Ok(epoch_in(&value)),
            StoreAnswer::NotThere => Ok(0),
            StoreAnswer::Refused { refusal } => Err(refusal),
            _ => unreachable!(),
        }
    }

    // Answers a transaction of an epoch.
    fn transact(
        &mut self,
        epoch: u64,
        stamp: Stamp,
        actor: ActorKey,
        ops: StateOps,
        now: u64,
    ) -> FencedAnswer
        requires { MayCome (record { now = now; command = StoreCommand.Tx stamp actor ops }) }
        ensures moves { FencedMoves self.old (FencedCommand.Tx epoch (StoreCommand.Tx stamp actor ops)) now result self.new }
        ensures fits { FencedAnswerFits result }
        ensures short { epoch < 2 ^ 64 }
    {
        let seen = match self.see(&actor, now) {
            Ok(seen) => seen,
            Err(refusal) => return refused(refusal),
        };
        if let Some(answer) = tx_refusal(epoch, seen, ops.as_slice()) {
            return answer;
        }
        let Ok(ops) = with_epoch(self.alloc, ops, epoch) else {
            return refused(StoreRefusal::OutOfMemory);
        };
        FencedAnswer::Answer {
            answer: self
                .store
                .command(StoreCommand::Tx { stamp, actor, ops }, now),
        }
    }

    // Answers a command without an epoch.
    fn answer_plain(&mut self, command: StoreCommand, now: u64) -> FencedAnswer
        requires { MayCome (record { now = now; command = command }) }
        ensures moves { FencedMoves self.old (FencedCommand.Plain command) now result self.new }
        ensures fits { FencedAnswerFits result }
    {
        match plain_answer(&command) {
            Some(answer) => answer,
            None => FencedAnswer::Answer {
                answer: self.store.command(command, now),
            },
        }
    }

    /// Answers a command at `now`, in milliseconds since 1970. A transaction of an epoch is refused in this order: what
    /// the store answers for the actor's epoch if it can't tell it, `StaleEpoch` below that epoch, `ReservedKey` at the
    /// first operation that names the key `actors.epoch`, `TooManyOps` above 999 operations, and then as the store does.
    /// An accepted one sets the actor's epoch, and both are on the disk before it is answered. A transaction without an
    /// epoch is `Unfenced`, and the key isn't there for a Get. Reminders aren't fenced.
    pub fn command(&mut self, command: FencedCommand, now: u64) -> FencedAnswer
        requires { MayFence command now }
        ensures moves { FencedMoves self.old command now result self.new }
        ensures fits { FencedAnswerFits result }
        ensures short { HasShortEpoch command }
    {
        match command {
            FencedCommand::Plain { command } => self.answer_plain(command, now),
            FencedCommand::Tx { epoch, command } => match command {
                StoreCommand::Tx { stamp, actor, ops } => {
                    self.transact(epoch, stamp, actor, ops, now)
                }
                _ => unreachable!(),
            },
        }
    }

    /// Writes the contents anew, as they are at `now`, in milliseconds since 1970, if the live file has at least `least`
    /// bytes. The contents stay, whatever it answers, and so do the epochs.
    pub fn compact(&mut self, least: u64, now: u64) -> CompactEnd
        requires { now < 253370764800000 }
        ensures { Compacts least now self.old result self.new }
    {
        self.store.compact(least, now)
    }
}
