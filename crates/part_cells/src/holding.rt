// Holds of an actor.
ghost use Rattle.std.specs.Prelude.{◌≡◌, ◌<◌, ◌^◌, max, IfSome};
ghost use Rattle.turn_core.specs.Cell.{with_hold, without_hold};
ghost use Rattle.part_model.specs.Cells.{keep_cell};
ghost use Rattle.part_cells.specs.Slots.{cell_of_slot};

use crate::cells::Cells;

impl Cells {
    /// One hold more of the actor with this slot.
    pub fn hold(&mut self, slot: usize)
        requires { IfSome (cell_of_slot self.old slot) (λ c. c.inner.holds < 2 ^ 62) }
        ensures { IfSome (cell_of_slot self.old slot) (λ c. self.new.cells ≡ keep_cell self.old.cells (record c { inner = with_hold c.inner })) }
    {
        let Some(hashed) = self.slots.get_mut(slot) else {
            return;
        };
        hashed.cell.inner.hold();
    }

    /// One hold less of the actor with this slot, if it has one, at this moment.
    pub fn release(&mut self, slot: usize, now: u64)
        ensures { IfSome (cell_of_slot self.old slot) (λ c. self.new.cells ≡ keep_cell self.old.cells (record c { inner = without_hold c.inner; last = max c.last now })) }
    {
        let Some(hashed) = self.slots.get_mut(slot) else {
            return;
        };
        let _released = hashed.cell.inner.release();
        hashed.cell.last = hashed.cell.last.max(now);
    }
}
