// The opening of a part: waiting calls begin in its own cells, and are moved in those of other owners.
ghost use Rattle.std.specs.Prelude.{◌≡◌};
ghost use Rattle.part_core.specs.Actors.{no_actors, state_of};
ghost use Rattle.part_model.specs.Marks.{begun_calls};
ghost use Rattle.part_model.specs.Part.{is_own, open_cell, each_cell, ring_owner};

use crate::actors::Actors;
use crate::owners::is_own;
use crate::standing::Standing;
use part_cells::CellTest;
use part_model::ActorCell;

/// Whether the actor belongs to this member.
#[derive(Drop)]
struct IsOwn<'a> {
    standing: &'a Standing,
}

impl<'a> CellTest for IsOwn<'a> {
    ghost holds = { λ t c. is_own ring_owner (state_of t.standing.now no_actors) c.key };

    fn holds(&self, cell: &ActorCell, hash: u64) -> bool {
        is_own(self.standing, &cell.key, hash)
    }
}

/// How many calls began, and how many were moved.
#[derive(Clone, Copy)]
pub(crate) struct Opening {
    pub(crate) begun: u32,
    pub(crate) moved: u32,
}

impl Actors {
    /// The part opens: waiting calls begin in its own cells, and are moved in the others.
    pub(crate) fn open(&mut self, standing: &Standing) -> Opening
        ensures drawn { self.new.drawn ≡ self.old.drawn }
        ensures cells { self.new.cells ≡ (each_cell (open_cell ring_owner (state_of standing.now no_actors)) self.old.cells).cells }
        ensures recent { self.new.recent ≡ begun_calls (each_cell (open_cell ring_owner (state_of standing.now no_actors)) self.old.cells).marks }
        ensures begun { result.begun ≡ (each_cell (open_cell ring_owner (state_of standing.now no_actors)) self.old.cells).first }
        ensures moved { result.moved ≡ (each_cell (open_cell ring_owner (state_of standing.now no_actors)) self.old.cells).second }
    {
        self.recent.clear();
        let own = IsOwn { standing };
        let moved = self.cells.open(&own, &mut self.recent);
        Opening {
            begun: self.recent.len() as u32,
            moved,
        }
    }
}
