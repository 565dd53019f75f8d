// The actors of a part: their cells, the numbers drawn, and the calls of the last step.
ghost use Rattle.std.specs.Prelude.{◌≡◌, []};
ghost use Rattle.part_core.specs.Actors.{state_of, view_of};
ghost use Rattle.part_model.specs.Part.{draw_part, ring_owner};
ghost use Rattle.part_model.specs.Rooms.{Gives};
ghost use Rattle.part_core.specs.declared.standing.Standing.{Standing};

use crate::receipt::PartReply;
use part_cells::Cells;
use std::alloc::Global;
use std::marker::Model;

/// The greatest number that can be drawn, 2^62.
pub(crate) const MOST_DRAWN: u64 = 4611686018427387904;

/// The greatest number of cells of a part.
pub(crate) const MOST_CELLS: usize = 65536;

/// The cells in order of key, how many numbers were drawn, and the calls that the last step began or ended, with room
/// for all that a step can begin or end.
#[derive(Drop)]
pub(crate) struct Actors {
    pub(crate) alloc: Global,
    pub(crate) cells: Cells,
    pub(crate) drawn: u64,
    pub(crate) recent: Vec<u64>,
}

impl Model for Actors {
    ghost use Rattle.std.specs.Prelude.{vec_capacity};
    ghost use Rattle.part_core.specs.Actors.{ActorsState, AreActorsKept};

    ghost Value = { ActorsState };

    ghost view = { λ a. record { drawn = a.drawn; cells = a.cells.cells; recent = a.recent.items } };

    ghost invariant = { λ a. AreActorsKept a.drawn a.cells.cells (vec_capacity a.recent) };
}

impl Actors {
    /// No actors, with no number drawn.
    pub(crate) fn new(alloc: Global) -> Actors
        ensures { result ≡ record { drawn = 0; cells = []; recent = [] } }
    {
        Actors {
            alloc,
            cells: Cells::new(alloc),
            drawn: 0,
            recent: Vec::new(alloc),
        }
    }

    /// The calls that the last step began or ended.
    pub(crate) fn calls(&self) -> &[u64]
        ensures { result.now ≡ self.now.recent }
    {
        self.recent.as_slice()
    }

    /// Forgets the calls of the last step.
    pub(crate) fn forget(&mut self)
        ensures { self.new ≡ record self.old { recent = [] } }
    {
        self.recent.clear();
    }

    /// Draws the next number.
    pub(crate) fn draw(&mut self) -> PartReply
        ensures { (s : Standing) → Gives (draw_part ring_owner (state_of s self.old)) result (view_of s self.new) }
    {
        self.recent.clear();
        if self.drawn >= MOST_DRAWN {
            return PartReply::Spent { count: self.drawn };
        }
        self.drawn += 1;
        PartReply::Drawn { n: self.drawn }
    }
}
