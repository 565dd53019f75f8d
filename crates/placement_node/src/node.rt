// The placement with its journal.
ghost use Rattle.std.specs.Prelude.{◌≡◌, true, false, ℕ, List, None, Some, IfOk, IfErr, IfSome, OnOk};
ghost use Rattle.std.specs.declared.result.Result.TheVariants.{Ok};
ghost use Rattle.disk_model.specs.Disk.{Tells};
ghost use Rattle.tx_journal.specs.declared.error.JournalError.TheVariants as faults;
ghost use Rattle.tx_journal.specs.Calls.{first_side, told, tell_one, IsOpened};
ghost use Rattle.tx_journal.specs.Journal.{Rises};
ghost use Rattle.tx_journal.specs.File.{Image};
ghost use Rattle.tx_journal.specs.Pair.{Files, Holds};
ghost use Rattle.placement_core.specs.Runs.{AreRooms};
ghost use Rattle.placement_node.specs.declared.error.PlacementOpenError.TheVariants.{Journal as in_journal};
ghost use Rattle.placement_node.specs.Found.{placement_found};
ghost use Rattle.placement_node.specs.Node.{NodeMoves};
ghost use Rattle.placement_node.specs.Openings.{OpensNode, KeepsNode, RefusesNode, IsNodeError, CommitsRestart, CommittedRestart, RefusesRestart, NodeCosts, write_error};
ghost use Rattle.placement_node.specs.Ranges.{EventFits, RecordFits, ReplyFits, StateFits};
ghost use Rattle.placement_node.specs.Replies.{refused, LooksAt};
ghost use Rattle.placement_node.specs.Trials.{IsQuiet, Tries};
ghost use Rattle.placement_node.specs.Writes.{Keeps, answered, refusal_of};

use crate::answer::{refused, seen_rooms};
use crate::error::PlacementOpenError;
use crate::found::follow_all;
use crate::reply::NodeReply;
use crate::trial::{Tried, quiet_answer, try_step};
use crate::written::{Kept, write_record};
use actor_names::OutOfMemory;
use disk_model::Disk;
use frame_wire::Refusal;
use placement_core::{Placement, PlacementReplay};
use round_core::PlaceEvent;
use std::alloc::Global;
use std::marker::Model;
use tx_journal::{Journal, JournalError};

/// A placement with its journal. What a step changes for good is on the disk before the step is answered.
#[derive(Drop)]
pub struct PlacementNode<D: Disk> {
    alloc: Global,
    placement: Placement,
    journal: Journal<D>,
    buffer: Vec<u8>,
}

impl<D: Disk> Model for PlacementNode<D> {
    ghost use Rattle.std.specs.Prelude.{◌≡◌, None};
    ghost use Rattle.placement_node.specs.Node.{NodeState};
    ghost use Rattle.placement_node.specs.Ranges.{StateFits};

    ghost Value = { NodeState };

    ghost view = { λ n. record { state = n.placement.state; journal = n.journal } };

    ghost invariant = { λ n. StateFits n.placement.state × (n.journal.other ≡ None) };
}

// A restarted placement, and room for its records.
#[derive(Drop)]
struct Restarted {
    placement: Placement,
    buffer: Vec<u8>,
}

// Why a record wasn't written, as an opening answers it.
fn write_error(kept: Kept) -> Result<(), PlacementOpenError>
    ensures { result ≡ write_error kept }
{
    let error = match kept {
        Kept::Done => return Ok(()),
        Kept::NoMemory => JournalError::OutOfMemory,
        Kept::NoRoom { len } => JournalError::Full { len },
        Kept::Failed => JournalError::DiskFault,
    };
    Err(PlacementOpenError::Journal { error })
}

// Restarts the placement of which a journal has the records, and writes the record of the restart.
fn restart<D: Disk>(
    alloc: Global,
    journal: &mut Journal<D>,
    now: u64,
) -> Result<Restarted, PlacementOpenError>
    requires works { IsOpened journal.old }
    requires alone { journal.old.other ≡ None }
    ensures opened { IfOk result (λ r. (files : Files) → told journal.old ≡ Some files → (held : Image) → Holds held files → placement_found held.payloads now ≡ Ok r.placement.state) }
    ensures fits { IfOk result (λ r. StateFits r.placement.state × AreRooms r.placement.state.rooms) }
    ensures committed { OnOk result (Tells (CommittedRestart now) (told journal.old) (told journal.new)) }
    ensures crash { Tells (CommitsRestart now) (told journal.old) (told journal.new) }
    ensures refused { IfErr result (λ e. IsNodeError e × ((files : Files) → told journal.old ≡ Some files → (held : Image) → Holds held files → RefusesRestart now e held.payloads)) }
    ensures works { OnOk result (IsOpened journal.new) }
    ensures alone { journal.new.other ≡ None }
    ensures cause { NodeCosts journal.old.live.faults journal.new.live.faults result }
{
    let mut replay = PlacementReplay::new(alloc)?;
    follow_all(alloc, journal, &mut replay)?;
    let placement = replay.restarted(now)?;
    let _rooms = placement.rooms();
    let _len = journal.len();
    let mut buffer = Vec::new(alloc);
    write_error(write_record(&placement, &mut buffer, journal))?;
    Ok(Restarted { placement, buffer })
}

// That a journal of so many bytes has no room.
fn journal_full(len: u64) -> Refusal
    ensures is { result ≡ Refusal.JournalFull len }
    ensures fits { ReplyFits (refused result) }
{
    Refusal::JournalFull { len }
}

// Why a step is refused whose record wasn't written; `None` if it was.
fn refusal_of(kept: Kept) -> Option<Refusal>
    ensures is { result ≡ refusal_of kept }
    ensures fits { IfSome result (λ r. ReplyFits (refused r)) }
{
    match kept {
        Kept::Done => None,
        Kept::NoMemory => Some(Refusal::OutOfMemory),
        Kept::NoRoom { len } => Some(journal_full(len)),
        Kept::Failed => Some(Refusal::DiskFault),
    }
}

// The answer to a step, by what came of its record.
fn answered(kept: Kept, answer: NodeReply) -> NodeReply
    requires { ReplyFits answer }
    ensures is { result ≡ answered kept answer }
    ensures fits { ReplyFits result }
{
    match refusal_of(kept) {
        None => answer,
        Some(refusal) => {
            drop(answer);
            refused(refusal)
        }
    }
}

// Whether an event is a Look.
fn is_look(event: &PlaceEvent) -> bool
    ensures { result ≡ true → event.now ≡ PlaceEvent.Look }
{
    matches!(event, PlaceEvent::Look)
}

impl<D: Disk> PlacementNode<D> {
    /// Opens a placement at the moment `now`, in milliseconds since 1970: the restart of the records of its journal. The
    /// record of the round that the restart starts is on the disk before the call returns. The file is made if `create`
    /// is true and it isn't made yet. A refused opening hands the disk back.
    pub fn open(
        alloc: Global,
        disk: D,
        create: bool,
        now: u64,
    ) -> Result<PlacementNode<D>, (PlacementOpenError, D)>
        ensures opened { IfOk result (λ n. Tells (OpensNode create now n.state) (tell_one (D.told disk)) (told n.journal)) }
        ensures state { IfOk result (λ n. IsOpened n.journal × (n.journal.other ≡ None) × AreRooms n.state.rooms) }
        ensures refused { IfErr result (λ r. IsNodeError r.0 × ((files : Files) → tell_one (D.told disk) ≡ Some files → RefusesNode create now r.0 files)) }
        ensures crash { IfOk result (λ n. Tells (KeepsNode create now) (tell_one (D.told disk)) (told n.journal)) }
        ensures crash_refused { IfErr result (λ r. Tells (KeepsNode create now) (tell_one (D.told disk)) (tell_one (D.told r.1))) }
        ensures cause { IfErr result (λ r. r.0 ≡ in_journal faults.DiskFault → Rises (D.disk_faults disk) (D.disk_faults r.1)) }
    {
        let mut journal = match Journal::open(alloc, disk, create) {
            Ok(journal) => journal,
            Err((error, disk)) => return Err((PlacementOpenError::Journal { error }, disk)),
        };
        match restart(alloc, &mut journal, now) {
            Ok(restarted) => {
                let Restarted { placement, buffer } = restarted;
                Ok(PlacementNode {
                    alloc,
                    placement,
                    journal,
                    buffer,
                })
            }
            Err(error) => match journal.close() {
                (disk, None) => Err((error, disk)),
                (_disk, Some(_other)) => unreachable!(),
            },
        }
    }

    /// One step of the placement at the moment `now`, in milliseconds since 1970. What it has to record is on the disk
    /// before it is answered. A Look is answered `Seen`, a Tick `Ticked`, every other event and every refusal `Message`.
    /// The refusals are those of the placement, and in this order: `Reopen` after a disk fault, until the node is opened
    /// again; the placement's own; `JournalFull` if the journal has no room for the record; `DiskFault`. A step that is
    /// refused, or for which there is no memory, changes nothing.
    pub fn step(&mut self, event: PlaceEvent, now: u64) -> NodeReply
        requires { EventFits event }
        ensures moves { NodeMoves self.old (record { event = event; now = now }) result self.new }
        ensures fits { ReplyFits result }
    {
        if self.is_shut() {
            drop(event);
            return refused(Refusal::Reopen);
        }
        if is_look(&event) {
            drop(event);
            return self.look();
        }
        self.change(event, now)
    }

    // A step of a node that has met no fault. A Beat is made in place where nothing else changes by it.
    fn change(&mut self, event: PlaceEvent, now: u64) -> NodeReply
        requires works { self.old.journal.is_broken ≡ false }
        requires sent { EventFits event }
        ensures moves { NodeMoves self.old (record { event = event; now = now }) result self.new }
        ensures fits { ReplyFits result }
    {
        match self.quiet_answer(&event) {
            None => self.change_by_copy(event, now),
            Some(Ok(answer)) => self.hear(event, now, answer),
            Some(Err(_)) => {
                drop(event);
                refused(Refusal::OutOfMemory)
            }
        }
    }

    // The answer to a Beat by which nothing but the moment changes at which its member was heard.
    fn quiet_answer(&self, event: &PlaceEvent) -> Option<Result<NodeReply, OutOfMemory>>
        requires { EventFits event.now }
        ensures { IfSome result (λ made. IfOk made (λ answer. IsQuiet self.now.state event.now answer)) }
    {
        quiet_answer(self.alloc, &self.placement, event)
    }

    // A Beat that is made in place, and has this answer.
    fn hear(&mut self, event: PlaceEvent, now: u64, answer: NodeReply) -> NodeReply
        requires works { self.old.journal.is_broken ≡ false }
        requires sent { EventFits event }
        requires quiet { IsQuiet self.old.state event answer }
        ensures moves { NodeMoves self.old (record { event = event; now = now }) result self.new }
        ensures fits { ReplyFits result }
    {
        let _before = self.placement.rooms();
        let _reply = self.placement.step(event, now);
        let _rooms = self.placement.rooms();
        answer
    }

    // A step that is tried on a copy of the placement, which is kept once its record is written.
    fn change_by_copy(&mut self, event: PlaceEvent, now: u64) -> NodeReply
        requires works { self.old.journal.is_broken ≡ false }
        requires sent { EventFits event }
        ensures moves { NodeMoves self.old (record { event = event; now = now }) result self.new }
        ensures fits { ReplyFits result }
    {
        match self.tried(event, now) {
            None => refused(Refusal::OutOfMemory),
            Some(tried) => {
                let Tried { placement, answer } = tried;
                let kept = self.keep(placement);
                answered(kept, answer)
            }
        }
    }

    /// Whether a disk fault was met, so that the node has to be opened again.
    pub fn is_shut(&self) -> bool
        ensures { result ≡ self.now.journal.is_broken }
    {
        self.journal.is_broken()
    }

    // The placement after a step, and the answer to it. `None` if there is no memory.
    fn tried(&self, event: PlaceEvent, now: u64) -> Option<Tried>
        requires { EventFits event }
        ensures { IfSome result (λ tried. Tries event now self.now.state tried.placement tried.answer) }
    {
        try_step(self.alloc, &self.placement, event, now)
    }

    // The answer to a Look, which changes nothing.
    fn look(&self) -> NodeReply
        ensures looks { LooksAt self.now.state result }
        ensures order { AreRooms self.now.state.rooms }
    {
        let _rooms = self.placement.rooms();
        match seen_rooms(self.alloc, &self.placement) {
            Ok(rooms) => NodeReply::Seen { rooms },
            Err(_) => refused(Refusal::OutOfMemory),
        }
    }

    // Writes what the last step of this placement has to record, and then keeps the placement.
    fn keep(&mut self, trial: Placement) -> Kept
        requires works { self.old.journal.is_broken ≡ false }
        requires state { StateFits trial.state }
        requires record_ { RecordFits trial.recent }
        ensures { Keeps trial result self.old self.new }
    {
        match write_record(&trial, &mut self.buffer, &mut self.journal) {
            Kept::Done => {
                self.placement = trial;
                Kept::Done
            }
            Kept::NoMemory => Kept::NoMemory,
            Kept::NoRoom { len } => Kept::NoRoom { len },
            Kept::Failed => Kept::Failed,
        }
    }

    /// Lends the disk.
    pub fn disk(&self) -> &D
        ensures { record { told = D.told result.now; faults = D.disk_faults result.now } ≡ first_side self.now.journal }
    {
        self.journal.disk()
    }

    /// Ends the node and hands back its disk, as it is; the second one is none.
    pub fn close(self) -> (D, Option<D>)
        ensures first { record { told = D.told result.0; faults = D.disk_faults result.0 } ≡ first_side self.journal }
        ensures second { result.1 ≡ None }
    {
        let PlacementNode { journal, .. } = self;
        journal.close()
    }
}
