// The end of the drain time: open turns of actors of other owners end.
ghost use Rattle.std.specs.Prelude.{◌≡◌, ◌&&◌, not};
ghost use Rattle.turn_core.specs.Cell.{is_free};
ghost use Rattle.part_core.specs.Actors.{no_actors, state_of};
ghost use Rattle.part_model.specs.Marks.{ended_calls};
ghost use Rattle.part_model.specs.Part.{is_foreign, is_overdue, tick_cell, each_cell, ring_owner};

use crate::actors::Actors;
use crate::owners::is_own;
use crate::settings::drain_of;
use crate::standing::Standing;
use part_cells::CellTest;
use part_model::ActorCell;

/// Whether the drain time of the actor's type has passed since the table was installed. If the clock went back, it
/// has not, not even a drain time of 0.
fn is_overdue(standing: &Standing, now: u64, cell: &ActorCell) -> bool
    ensures { result ≡ is_overdue ring_owner (state_of standing.now no_actors) now cell.now }
{
    standing.since <= now
        && drain_of(standing.kinds.as_slice(), &cell.key.kind) <= now.saturating_sub(standing.since)
}

/// Whether turns of an actor of another owner are open and its drain time is over.
#[derive(Drop)]
struct IsLate<'a> {
    standing: &'a Standing,
    now: u64,
}

impl<'a> CellTest for IsLate<'a> {
    ghost holds = { λ t c. not (is_free c.inner) && (is_foreign ring_owner (state_of t.standing.now no_actors) c.key && is_overdue ring_owner (state_of t.standing.now no_actors) t.now c) };

    // The owner is looked up only if the cell has an open turn and its drain time has passed.
    fn holds(&self, cell: &ActorCell, hash: u64) -> bool {
        if cell.inner.turns() == 0 || !is_overdue(self.standing, self.now, cell) {
            return false;
        }
        !is_own(self.standing, &cell.key, hash)
    }
}

impl Actors {
    /// Ends the turns of foreign actors whose drain time is over, and returns how many there were.
    pub(crate) fn tick(&mut self, standing: &Standing, now: u64) -> u32
        ensures drawn { self.new.drawn ≡ self.old.drawn }
        ensures cells { self.new.cells ≡ (each_cell (tick_cell ring_owner (state_of standing.now no_actors) now) self.old.cells).cells }
        ensures recent { self.new.recent ≡ ended_calls (each_cell (tick_cell ring_owner (state_of standing.now no_actors) now) self.old.cells).marks }
        ensures ended { result ≡ (each_cell (tick_cell ring_owner (state_of standing.now no_actors) now) self.old.cells).first }
    {
        self.recent.clear();
        let late = IsLate { standing, now };
        self.cells.drain(&late, now, &mut self.recent)
    }
}
