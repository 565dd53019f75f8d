// Commands in a list: each is answered by what those before it leave, and their records go to the disk in batches.
ghost use Rattle.std.specs.Prelude.{◌≡◌, ◌⊎◌, ◌<◌, ◌≤◌, ◌++◌, ℕ, [], List, length, ◌+◌, ◌-◌, take, false, true, None, Some, IfSome, IsTrue, IsFalse};
ghost use Rattle.std.specs.List.{AllByRecursion};
ghost use Rattle.std.specs.Vec.{vec_capacity};
ghost use Rattle.frame_wire.specs.Store.{AnswerFits};
ghost use Rattle.frame_wire.specs.StoreParts.{StoreRefusalFits};
ghost use Rattle.store_tables.specs.Tables.{Tables, told_in};
ghost use Rattle.store_tables.specs.Contents.{outcome_of};
ghost use Rattle.tx_journal.specs.Batches.{behind};
ghost use Rattle.store_payloads.specs.Fits.{TablesFit};
ghost use Rattle.store_payloads.specs.Laws.{MayCome};
ghost use Rattle.store_core.specs.Store.{StoreState, refusal_by};
ghost use Rattle.store_core.specs.Lists.{Rules, AnswersAll};
ghost use Rattle.store_core.specs.Listings.{all_so, IsForeseen, ForeseenFits, MayPut, first_with, GoesOn, Stages, AnswersCommand, AnswersNext, AnswersEach};

use super::{Store, disk_fault, out_of_memory, refusal_by, refused, reopen};
use crate::ending::end;
use crate::guard::{Guard, Guarded};
use disk_model::Disk;
use frame_wire::{StoreAnswer, StoreCommand, StoreRefusal};
use std::alloc::Global;
use std::mem;
use store_payloads::{payload_law, write_command_payload};
use store_tables::{PreparedCommand, StoreTables};
use tx_journal::{Batch, Journal, Staged};

// A list under way: a batch, and the answers so far. Those from `first` on wait for the batch; none do if it is empty.
#[derive(Drop)]
pub(crate) struct Listing<B> {
    pub(crate) batch: Batch,
    pub(crate) answers: Vec<B>,
    pub(crate) first: Option<usize>,
}

// What a command is answered at once, or what is to be done for it.
#[derive(Drop)]
pub(crate) enum Foreseen {
    Told {
        answer: StoreAnswer,
    },
    Ready {
        payload: Vec<u8>,
        prepared: PreparedCommand,
    },
}

// Takes the memory of a command that is to be accepted.
fn make_ready(alloc: Global, tables: &mut StoreTables, command: StoreCommand, now: u64) -> Foreseen
    requires may { MayCome (record { now = now; command = command }) }
    requires accepted { told_in (outcome_of tables.old.tables (record { now = now; command = command })) ≡ None }
    ensures foreseen { IsForeseen false (record { now = now; command = command }) tables.old.tables result tables.new }
    ensures tables { tables.new.tables ≡ tables.old.tables }
    ensures fits { ForeseenFits result }
{
    let mut payload = Vec::new(alloc);
    if write_command_payload(&mut payload, &command, now).is_err() {
        end(command);
        return Foreseen::Told {
            answer: out_of_memory(),
        };
    }
    match tables.prepare(command, now) {
        Ok(prepared) => Foreseen::Ready { payload, prepared },
        Err(_) => Foreseen::Told {
            answer: out_of_memory(),
        },
    }
}

// What the tables tell of a command, or the command with its memory.
fn foresee(
    alloc: Global,
    is_broken: bool,
    tables: &mut StoreTables,
    command: StoreCommand,
    now: u64,
) -> Foreseen
    requires may { MayCome (record { now = now; command = command }) }
    requires fits { TablesFit tables.old.tables }
    ensures foreseen { IsForeseen is_broken (record { now = now; command = command }) tables.old.tables result tables.new }
    ensures tables { tables.new.tables ≡ tables.old.tables }
    ensures fits { ForeseenFits result }
{
    payload_law();
    tables.order_law();
    if is_broken {
        end(command);
        return Foreseen::Told { answer: reopen() };
    }
    match tables.told(&command, now) {
        Ok(Some(answer)) => {
            end(command);
            Foreseen::Told { answer }
        }
        Ok(None) => make_ready(alloc, tables, command, now),
        Err(_) => {
            end(command);
            Foreseen::Told {
                answer: out_of_memory(),
            }
        }
    }
}

// Answers from `first` on that the disk failed.
fn fail_from<G: Guard>(answers: &mut Vec<G::Answer>, first: usize)
    requires { first ≤ length answers.old.items }
    ensures items { answers.new.items ≡ take first answers.old.items ++ all_so (G.rules.told (StoreAnswer.Refused StoreRefusal.DiskFault)) (length answers.old.items - first) }
    ensures fits { AllByRecursion G.fits answers.old.items → AllByRecursion G.fits answers.new.items }
    ensures count { length answers.new.items ≡ length answers.old.items }
    ensures capacity { vec_capacity answers.new ≡ vec_capacity answers.old }
{
    for at in first..answers.len() {
        answers[at] = G::told(disk_fault());
    }
}

// Puts the batch on the disk, and empties it. Answers whether the disk failed; then the answers that wait for the batch
// say so.
fn put<D: Disk, G: Guard>(journal: &mut Journal<D>, list: &mut Listing<G::Answer>) -> bool
    requires { MayPut list.old.first list.old.batch journal.old (length list.old.answers.items) }
    ensures goes_on { (t : Tables) → GoesOn G.rules list.old.answers.items journal.old t list.old.batch list.old.first list.new.answers.items journal.new list.new.batch list.new.first }
    ensures batch { list.new.batch ≡ [] }
    ensures first { list.new.first ≡ None }
    ensures others { AllByRecursion G.fits list.old.answers.items → AllByRecursion G.fits list.new.answers.items }
    ensures failed { result ≡ true → journal.new.is_broken ≡ true }
    ensures end { result ≡ false → journal.new.end ≡ (behind list.old.batch journal.old).end }
    ensures works { result ≡ false → journal.new.is_broken ≡ journal.old.is_broken }
    ensures count { length list.new.answers.items ≡ length list.old.answers.items }
    ensures capacity { vec_capacity list.new.answers ≡ vec_capacity list.old.answers }
{
    payload_law();
    let Some(first) = list.first else {
        return false;
    };
    list.first = None;
    let has_failed = journal.append_all(&list.batch).is_err();
    list.batch.clear();
    if has_failed {
        fail_from::<G>(&mut list.answers, first);
    }
    has_failed
}

// Where the answers that wait for a batch begin, once it has one payload more.
fn first_with(first: Option<usize>, count: usize) -> Option<usize>
    ensures { result ≡ first_with first count }
{
    match first {
        Some(first) => Some(first),
        None => Some(count),
    }
}

// Adds a payload to the batch, which goes to the disk before if it has no room for it. Answers why it was not added.
#[tactic(auto, unfolding(wire_fields::specs::Fields::number64))]
fn stage<D: Disk, G: Guard>(
    journal: &mut Journal<D>,
    list: &mut Listing<G::Answer>,
    payload: &[u8],
) -> Option<StoreRefusal>
    requires works { journal.old.is_broken ≡ false }
    requires waits { MayPut list.old.first list.old.batch journal.old (length list.old.answers.items) }
    ensures stages { (t : Tables) → Stages G.rules payload.now result t list.old.answers.items journal.old list.old.batch list.old.first list.new.answers.items journal.new list.new.batch list.new.first }
    ensures fits { IfSome result StoreRefusalFits }
    ensures others { AllByRecursion G.fits list.old.answers.items → AllByRecursion G.fits list.new.answers.items }
    ensures waits { MayPut list.new.first list.new.batch journal.new (length list.new.answers.items) }
    ensures count { length list.new.answers.items ≡ length list.old.answers.items }
    ensures capacity { vec_capacity list.new.answers ≡ vec_capacity list.old.answers }
{
    match journal.stage(&mut list.batch, payload) {
        Ok(Staged::Added) => {
            list.first = first_with(list.first, list.answers.len());
            None
        }
        Ok(Staged::NoRoom) => {
            if put::<D, G>(journal, list) {
                return Some(StoreRefusal::Reopen);
            }
            match journal.stage(&mut list.batch, payload) {
                Ok(Staged::Added) => {
                    list.first = first_with(list.first, list.answers.len());
                    None
                }
                _ => unreachable!(),
            }
        }
        Err(error) => Some(refusal_by(error)),
    }
}

// Answers a command that the guard passed.
fn answer_command<D: Disk, G: Guard>(
    alloc: Global,
    journal: &mut Journal<D>,
    tables: &mut StoreTables,
    list: &mut Listing<G::Answer>,
    command: StoreCommand,
    now: u64,
) -> StoreAnswer
    requires may { MayCome (record { now = now; command = command }) }
    requires fits { TablesFit tables.old.tables }
    requires waits { MayPut list.old.first list.old.batch journal.old (length list.old.answers.items) }
    ensures answers { AnswersCommand G.rules (record { now = now; command = command }) result list.old.answers.items journal.old tables.old.tables list.old.batch list.old.first list.new.answers.items journal.new tables.new.tables list.new.batch list.new.first }
    ensures fits { AnswerFits result }
    ensures others { AllByRecursion G.fits list.old.answers.items → AllByRecursion G.fits list.new.answers.items }
    ensures tables { TablesFit tables.new.tables }
    ensures waits { MayPut list.new.first list.new.batch journal.new (length list.new.answers.items) }
    ensures count { length list.new.answers.items ≡ length list.old.answers.items }
    ensures capacity { vec_capacity list.new.answers ≡ vec_capacity list.old.answers }
{
    payload_law();
    tables.order_law();
    match foresee(alloc, journal.is_broken(), tables, command, now) {
        Foreseen::Told { answer } => answer,
        Foreseen::Ready { payload, prepared } => {
            match stage::<D, G>(journal, list, payload.as_slice()) {
                None => tables.apply(prepared),
                Some(refusal) => {
                    end(prepared);
                    refused(refusal)
                }
            }
        }
    }
}

// Answers what is asked next.
fn answer_next<D: Disk, G: Guard>(
    alloc: Global,
    journal: &mut Journal<D>,
    tables: &mut StoreTables,
    list: &mut Listing<G::Answer>,
    asked: G::Asked,
)
    requires may { G.may asked }
    requires fits { TablesFit tables.old.tables }
    requires room { length list.old.answers.items < vec_capacity list.old.answers }
    requires waits { MayPut list.old.first list.old.batch journal.old (length list.old.answers.items) }
    ensures answers { AnswersNext G.rules asked list.old.answers.items journal.old tables.old.tables list.old.batch list.old.first list.new.answers.items journal.new tables.new.tables list.new.batch list.new.first }
    ensures fits { AllByRecursion G.fits list.old.answers.items → AllByRecursion G.fits list.new.answers.items }
    ensures short { G.short asked }
    ensures tables { TablesFit tables.new.tables }
    ensures waits { MayPut list.new.first list.new.batch journal.new (length list.new.answers.items) }
    ensures count { length list.new.answers.items ≡ length list.old.answers.items + 1 }
    ensures capacity { vec_capacity list.new.answers ≡ vec_capacity list.old.answers }
{
    match G::guard(alloc, tables, journal.is_broken(), asked) {
        Guarded::Answer { answer } => list.answers.push_reserved(answer),
        Guarded::Pass { command, now } => {
            let given = answer_command::<D, G>(alloc, journal, tables, list, command, now);
            list.answers.push_reserved(G::told(given));
        }
    }
}

// Answers all that is asked, one after another.
fn answer_each<D: Disk, G: Guard>(
    alloc: Global,
    journal: &mut Journal<D>,
    tables: &mut StoreTables,
    list: &mut Listing<G::Answer>,
    asked: &mut Vec<G::Asked>,
)
    requires may { AllByRecursion G.may asked.old.items }
    requires fits { TablesFit tables.old.tables }
    requires room { length list.old.answers.items + length asked.old.items ≤ vec_capacity list.old.answers }
    requires waits { MayPut list.old.first list.old.batch journal.old (length list.old.answers.items) }
    ensures answers { AnswersEach G.rules asked.old.items list.old.answers.items journal.old tables.old.tables list.old.batch list.old.first list.new.answers.items journal.new tables.new.tables list.new.batch list.new.first }
    ensures fits { AllByRecursion G.fits list.old.answers.items → AllByRecursion G.fits list.new.answers.items }
    ensures short { AllByRecursion G.short asked.old.items }
    ensures emptied { asked.new.items ≡ [] }
    ensures waits { MayPut list.new.first list.new.batch journal.new (length list.new.answers.items) }
    ensures capacity { (vec_capacity asked.new ≡ vec_capacity asked.old) × (vec_capacity list.new.answers ≡ vec_capacity list.old.answers) }
{
    asked.reverse();
    while let Some(one) = asked.pop() {
        answer_next::<D, G>(alloc, journal, tables, list, one);
    }
}

impl<D: Disk> Store<D> {
    // Takes the memory of a batch, once.
    fn take_batch(&mut self) -> Option<Batch>
        ensures { self.new ≡ self.old }
    {
        match self.batch.take() {
            Some(batch) => Some(batch),
            None => Batch::new(self.alloc).ok(),
        }
    }

    /// Answers what a list asks, one after another, each by what those before it leave, and each with its own refusal;
    /// the answers come in the order of what was asked. The records of the accepted commands go to the disk in batches
    /// of at most 5,242,885 bytes, each with four calls of the disk, and all are there before the list is answered. A
    /// crash leaves a batch as a whole or not at all. If the disk fails, what is asked from the first command of that
    /// batch on is answered so, and what comes behind the batch `Reopen`. False says that there was no memory for a
    /// batch, which is taken once; then nothing was done.
    pub fn commands<G: Guard>(
        &mut self,
        asked: &mut Vec<G::Asked>,
        answers: &mut Vec<G::Answer>,
    ) -> bool
        requires may { AllByRecursion G.may asked.old.items }
        requires room { (answers.old.items ≡ []) × (length asked.old.items ≤ vec_capacity answers.old) }
        ensures answers { IsTrue result → AnswersAll G.rules self.old asked.old.items answers.new.items self.new }
        ensures fits { AllByRecursion G.fits answers.new.items }
        ensures short { IsTrue result → AllByRecursion G.short asked.old.items }
        ensures emptied { IsTrue result → asked.new.items ≡ [] }
        ensures memory { IsFalse result → (self.new ≡ self.old) × (asked.new.items ≡ asked.old.items) × (answers.new.items ≡ []) }
        ensures room { (vec_capacity asked.new ≡ vec_capacity asked.old) × (vec_capacity answers.new ≡ vec_capacity answers.old) }
    {
        let Some(batch) = self.take_batch() else {
            return false;
        };
        let mut list = Listing {
            batch,
            answers: mem::replace(answers, Vec::new(self.alloc)),
            first: None,
        };
        list.batch.clear();
        answer_each::<D, G>(
            self.alloc,
            &mut self.journal,
            &mut self.tables,
            &mut list,
            asked,
        );
        put::<D, G>(&mut self.journal, &mut list);
        let Listing {
            batch,
            answers: given,
            first: _,
        } = list;
        *answers = given;
        self.batch = Some(batch);
        true
    }
}
