// The deactivation of actors: an actor is taken, and later its deactivation call ends.
ghost use Rattle.std.specs.Prelude.{◌≡◌, ◌&&◌, false};
ghost use Rattle.part_core.specs.Actors.{IsForeignCounted, no_actors, state_of, view_of, is_closed, gives_some, may_close_if};
ghost use Rattle.part_model.specs.Part.{is_stopped, is_idle, take_closing, closed_part, is_foreign, ring_owner};
ghost use Rattle.part_model.specs.Sound.{OwnsWhenOpen};
ghost use Rattle.part_model.specs.Rooms.{Gives, GivesInMemory, RunsOutFor, hands_out};

use crate::actors::Actors;
use crate::asking::note_next;
use crate::holding::is_resting;
use crate::owners::{is_own, is_served};
use crate::receipt::PartReply;
use crate::settings::idle_of;
use crate::standing::{Standing, gives_some};
use actor_names::ActorKey;
use part_cells::CellTest;
use part_model::ActorCell;
use place_table::key_hash;

/// Whether no call waits but moved ones, and the idle time of the actor's type has passed since its last turn or
/// hold ended.
fn is_idle(standing: &Standing, now: u64, cell: &ActorCell) -> bool
    ensures { result ≡ is_idle ring_owner (state_of standing.now no_actors) now cell.now }
{
    cell.inner.unmoved() == 0
        && idle_of(standing.kinds.as_slice(), &cell.key.kind) <= now.saturating_sub(cell.last)
}

/// Whether the part gives up this actor, because it belongs to another owner.
pub(crate) fn gives_up(standing: &Standing, key: &ActorKey) -> bool
    ensures { result ≡ (gives_some standing.now && is_foreign ring_owner (state_of standing.now no_actors) key.now) }
{
    gives_some(standing) && !is_own(standing, key, key_hash(&key.id))
}

/// Whether the reply says that a deactivation is over.
pub(crate) fn is_closed(reply: &PartReply) -> bool
    ensures { result ≡ is_closed reply.now }
{
    match reply {
        PartReply::ClosedDone { .. } => true,
        _ => false,
    }
}

/// Whether the actor may be taken for deactivation at this moment. If `gives` is false, the part has no active actor to
/// give up, and no owner is looked up.
#[derive(Drop)]
struct MayClose<'a> {
    standing: &'a Standing,
    now: u64,
    gives: bool,
}

impl<'a> CellTest for MayClose<'a> {
    ghost holds = { λ t c. may_close_if t.gives (state_of t.standing.now no_actors) t.now c };

    fn holds(&self, cell: &ActorCell, hash: u64) -> bool {
        is_resting(cell)
            && ((self.gives && !is_own(self.standing, &cell.key, hash))
                || is_idle(self.standing, self.now, cell))
    }
}

impl Actors {
    /// Takes the actor with the least key that may be deactivated; it is closing from now on.
    pub(crate) fn take_closing(&mut self, standing: &Standing, now: u64) -> PartReply
        requires running { is_stopped standing.now.stage ≡ false }
        requires counted { IsForeignCounted standing.now self.old.cells }
        ensures gives { GivesInMemory (take_closing ring_owner (state_of standing.now self.old) now) result (state_of standing.now self.old) (view_of standing.now self.new) }
        ensures memory { RunsOutFor hands_out (take_closing ring_owner (state_of standing.now self.old) now) result }
    {
        self.recent.clear();
        let gives = gives_some(standing);
        let test = MayClose {
            standing,
            now,
            gives,
        };
        let Some((slot, cell)) = self.cells.first(&test) else {
            return PartReply::NoneClosing;
        };
        let Ok(key) = cell.key.copy(self.alloc) else {
            return PartReply::OutOfMemory;
        };
        self.cells.close(slot);
        PartReply::Close { key }
    }

    /// The deactivation call of the actor has ended; a waiting call begins if it may.
    pub(crate) fn closed(&mut self, standing: &Standing, key: &ActorKey) -> PartReply
        requires { OwnsWhenOpen ring_owner (state_of standing.now self.old) }
        ensures { Gives (closed_part ring_owner (state_of standing.now self.old) key.now) result (view_of standing.now self.new) }
    {
        self.recent.clear();
        let Some((slot, cell, hash)) = self.cells.find(key) else {
            return PartReply::NotClosing;
        };
        if !cell.closing {
            return PartReply::NotClosing;
        }
        let may_begin = is_served(standing, cell, hash);
        let next = self.cells.closed(slot, may_begin);
        note_next(&mut self.recent, next);
        PartReply::ClosedDone { next }
    }
}
