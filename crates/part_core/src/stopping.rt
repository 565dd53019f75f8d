// The stop of a part: every turn ends and every cell is dropped.
ghost use Rattle.std.specs.Prelude.{◌≡◌, []};
ghost use Rattle.part_model.specs.Marks.{ended_calls, marks_of_stop};

use crate::actors::Actors;

impl Actors {
    /// Every turn ends, and every cell is dropped.
    pub(crate) fn stop(&mut self)
        ensures { self.new ≡ record { drawn = self.old.drawn; cells = []; recent = ended_calls (marks_of_stop self.old.cells) } }
    {
        self.recent.clear();
        self.cells.stop(self.alloc, &mut self.recent);
    }
}
