// Calls of a part's actors: asked, polled and ended.
ghost use Rattle.std.specs.Prelude.{◌≡◌, ◌<◌, ◌≤◌, ◌^◌, [], None, false, length, IsSome};
ghost use Rattle.place_table.specs.Hosts.{key_place};
ghost use Rattle.part_model.specs.Cells.{cell_at};
ghost use Rattle.part_core.specs.Actors.{state_of, view_of, IsFirstCell, HasRunOut};
ghost use Rattle.part_model.specs.Part.{is_stopped, ask_part, ask_found, ask_cell, poll_part, end_part, ring_owner};
ghost use Rattle.part_model.specs.Rooms.{Gives, GivesInMemory, RunsOutFor, hands_out};
ghost use Rattle.part_model.specs.Settings.{AreShallow};
ghost use Rattle.part_model.specs.Sound.{OwnsWhenOpen};

use crate::actors::{Actors, MOST_CELLS, MOST_DRAWN};
use crate::asking::{accepted, enter, has_begun, note_next, refused};
use crate::chains::{call_chain, copy_chain};
use crate::owners::{may_hand_over, moved_reply};
use crate::receipt::PartReply;
use crate::settings::depth_of;
use crate::standing::Standing;
use actor_names::{ActorKey, ChainId};
use part_model::ActorCell;
use place_table::key_hash;
use turn_core::{Cell, CellEnd, CellPoll};

impl Actors {
    /// A first call of an actor, which gets this cell.
    fn add_first(
        &mut self,
        standing: &Standing,
        mut cell: ActorCell,
        hash: u64,
        chain: Option<ChainId>,
        may_begin: bool,
    ) -> PartReply
        requires running { is_stopped standing.now.stage ≡ false }
        requires numbers { self.old.drawn < 2 ^ 62 }
        requires none { self.old.recent ≡ [] }
        requires few { length self.old.cells < 65536 }
        requires absent { cell_at self.old.cells cell.key ≡ None }
        requires first { IsFirstCell cell }
        requires hashed { hash ≡ key_place cell.key.id }
        requires chained { 0 < cell.inner.depth → IsSome chain }
        ensures { GivesInMemory (ask_cell false (state_of standing.now self.old) cell chain may_begin) result (state_of standing.now self.old) (view_of standing.now self.new) }
    {
        let call = self.drawn + 1;
        let Ok(()) = self.recent.reserve(self.cells.count() + 1) else {
            return PartReply::OutOfMemory;
        };
        let Ok(asked) = cell.inner.ask(self.alloc, call, chain.as_ref(), may_begin) else {
            return PartReply::OutOfMemory;
        };
        cell.active = has_begun(&asked);
        let Ok(()) = self.cells.add(self.alloc, cell, hash, call) else {
            return PartReply::OutOfMemory;
        };
        self.drawn = call;
        accepted(&mut self.recent, call, chain, asked)
    }

    /// A call of an actor that has no cell.
    fn ask_first(&mut self, standing: &Standing, key: ActorKey, chain: Option<ChainId>) -> PartReply
        requires running { is_stopped standing.now.stage ≡ false }
        requires shallow { AreShallow standing.now.kinds }
        requires numbers { self.old.drawn < 2 ^ 62 }
        requires none { self.old.recent ≡ [] }
        requires absent { cell_at self.old.cells key ≡ None }
        ensures { GivesInMemory (ask_found ring_owner (state_of standing.now self.old) key chain (cell_at self.old.cells key)) result (state_of standing.now self.old) (view_of standing.now self.new) }
    {
        let depth = depth_of(standing.kinds.as_slice(), &key.kind);
        let Ok(inner) = Cell::new(self.alloc, depth) else {
            return PartReply::OutOfMemory;
        };
        let hash = key_hash(&key.id);
        let cell = first_cell(key, inner);
        let Ok(chain) = call_chain(self.alloc, standing, self.drawn, depth, chain) else {
            return PartReply::OutOfMemory;
        };
        match enter(self.alloc, standing, &cell, hash, chain.as_ref()) {
            Err(refusal) => refusal,
            Ok(may_begin) => {
                if self.cells.len() >= MOST_CELLS {
                    return PartReply::PartFull;
                }
                self.add_first(standing, cell, hash, chain, may_begin)
            }
        }
    }

    /// A call of an actor, from a caller that knows of a table of version `least`.
    pub(crate) fn ask(
        &mut self,
        standing: &Standing,
        key: ActorKey,
        chain: Option<ChainId>,
        least: u64,
    ) -> PartReply
        requires running { is_stopped standing.now.stage ≡ false }
        requires shallow { AreShallow standing.now.kinds }
        requires owns { OwnsWhenOpen ring_owner (state_of standing.now self.old) }
        ensures gives { GivesInMemory (ask_part ring_owner (state_of standing.now self.old) key chain least) result (state_of standing.now self.old) (view_of standing.now self.new) }
        ensures memory { HasRunOut result → (self.old.drawn < 2 ^ 62) × (least ≤ standing.now.seen) }
    {
        self.recent.clear();
        if self.drawn >= MOST_DRAWN {
            return PartReply::Spent { count: self.drawn };
        }
        if standing.seen < least {
            return PartReply::Behind {
                seen: standing.seen,
            };
        }
        let Some((slot, cell, hash)) = self.cells.find(&key) else {
            return self.ask_first(standing, key, chain);
        };
        let depth = cell.inner.depth();
        let Ok(chain) = call_chain(self.alloc, standing, self.drawn, depth, chain) else {
            return PartReply::OutOfMemory;
        };
        let may_begin = match enter(self.alloc, standing, cell, hash, chain.as_ref()) {
            Err(refusal) => return refusal,
            Ok(may_begin) => may_begin,
        };
        let Ok(()) = self.recent.reserve(self.cells.count() + 1) else {
            return PartReply::OutOfMemory;
        };
        let call = self.drawn + 1;
        match self
            .cells
            .ask(self.alloc, slot, call, chain.as_ref(), may_begin)
        {
            Err(refusal) => refused(refusal),
            Ok(asked) => {
                self.drawn = call;
                accepted(&mut self.recent, call, chain, asked)
            }
        }
    }

    /// A caller asks for the state of the call; a moved call is removed from its queue.
    pub(crate) fn poll(&mut self, standing: &Standing, call: u64) -> PartReply
        requires running { is_stopped standing.now.stage ≡ false }
        ensures gives { GivesInMemory (poll_part ring_owner (state_of standing.now self.old) call) result (state_of standing.now self.old) (view_of standing.now self.new) }
        ensures memory { RunsOutFor hands_out (poll_part ring_owner (state_of standing.now self.old) call) result }
    {
        self.recent.clear();
        let Some((slot, cell, hash)) = self.cells.find_call(call) else {
            return PartReply::AlreadyEnded;
        };
        match cell.inner.look(call) {
            CellPoll::Begun => match copy_chain(self.alloc, cell.inner.chain()) {
                Ok(chain) => PartReply::Begun { call, chain },
                Err(_) => PartReply::OutOfMemory,
            },
            CellPoll::Waits { place } => PartReply::Waits { call, place },
            CellPoll::Gone => PartReply::AlreadyEnded,
            CellPoll::Moved => match moved_reply(self.alloc, &standing.table, &cell.key, hash) {
                Err(_) => PartReply::OutOfMemory,
                Ok(reply) => {
                    self.cells.take_moved(slot, call);
                    reply
                }
            },
        }
    }

    /// The call's turn has ended; if the actor is then free, its next call begins if it may.
    pub(crate) fn end(&mut self, standing: &Standing, call: u64, now: u64) -> PartReply
        requires { OwnsWhenOpen ring_owner (state_of standing.now self.old) }
        ensures { Gives (end_part ring_owner (state_of standing.now self.old) call now) result (view_of standing.now self.new) }
    {
        self.recent.clear();
        let Some((slot, cell, hash)) = self.cells.find_call(call) else {
            return PartReply::AlreadyEnded;
        };
        let may_begin = may_hand_over(standing, cell, hash);
        match self.cells.end(slot, call, may_begin, now) {
            CellEnd::Ended { next } => {
                note_next(&mut self.recent, next);
                PartReply::Ended { next }
            }
            CellEnd::AlreadyEnded => PartReply::AlreadyEnded,
            CellEnd::StillWaiting => PartReply::StillWaiting,
        }
    }
}

/// The cell of an actor that was never called.
fn first_cell(key: ActorKey, inner: Cell) -> ActorCell
    ensures { result ≡ record { key = key; inner = inner; active = false; closing = false; last = 0 } }
{
    ActorCell {
        key,
        inner,
        active: false,
        closing: false,
        last: 0,
    }
}
