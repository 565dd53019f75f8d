// Holds of actors, which keep them from being deactivated.
ghost use Rattle.std.specs.Prelude.{◌≡◌, ◌&&◌, not};
ghost use Rattle.part_core.specs.Actors.{state_of, view_of};
ghost use Rattle.part_model.specs.Part.{hold_part, release_part, ring_owner};
ghost use Rattle.part_core.specs.Quiet.{is_resting};
ghost use Rattle.part_model.specs.Rooms.{Gives};

use crate::actors::{Actors, MOST_DRAWN};
use crate::receipt::PartReply;
use crate::standing::Standing;
use actor_names::ActorKey;
use part_model::ActorCell;

/// Whether the actor is active and isn't closing.
pub(crate) fn is_awake(cell: &ActorCell) -> bool
    ensures { result ≡ (cell.now.active && not cell.now.closing) }
{
    cell.active && !cell.closing
}

/// Whether the actor is active and not closing, and has no open turn and no hold.
pub(crate) fn is_resting(cell: &ActorCell) -> bool
    ensures { result ≡ is_resting cell.now }
{
    is_awake(cell) && cell.inner.turns() == 0 && cell.inner.holds() == 0
}

impl Actors {
    /// Adds one hold of the actor, and draws a number for it.
    pub(crate) fn hold(&mut self, standing: &Standing, key: &ActorKey) -> PartReply
        ensures { Gives (hold_part ring_owner (state_of standing.now self.old) key.now) result (view_of standing.now self.new) }
    {
        self.recent.clear();
        let Some((slot, cell, _)) = self.cells.find(key) else {
            return PartReply::NotActive;
        };
        if !is_awake(cell) {
            return PartReply::NotActive;
        }
        if self.drawn >= MOST_DRAWN {
            return PartReply::Spent { count: self.drawn };
        }
        self.cells.hold(slot);
        self.drawn += 1;
        PartReply::Held { n: self.drawn }
    }

    /// Removes one hold of the actor.
    pub(crate) fn release(&mut self, standing: &Standing, key: &ActorKey, now: u64) -> PartReply
        ensures { Gives (release_part ring_owner (state_of standing.now self.old) key.now now) result (view_of standing.now self.new) }
    {
        self.recent.clear();
        let Some((slot, cell, _)) = self.cells.find(key) else {
            return PartReply::NotHeld;
        };
        if cell.inner.holds() == 0 {
            return PartReply::NotHeld;
        }
        self.cells.release(slot, now);
        PartReply::Released
    }
}
