// The deactivation of an actor.
ghost use Rattle.std.specs.Prelude.{◌≡◌, [], true, IfSome, option_map};
ghost use Rattle.turn_core.specs.Cell.{call_of, next_call};
ghost use Rattle.part_model.specs.Cells.{keep_cell};
ghost use Rattle.part_cells.specs.Slots.{cell_of_slot, closed_cell};

use crate::cells::Cells;
use crate::dropping::drop_at;
use crate::opening::begin_if;

impl Cells {
    /// The actor with this slot, which has no open turn, is closing from now on.
    pub fn close(&mut self, slot: usize)
        requires { IfSome (cell_of_slot self.old slot) (λ c. c.inner.turns ≡ []) }
        ensures { IfSome (cell_of_slot self.old slot) (λ c. self.new.cells ≡ keep_cell self.old.cells (record c { closing = true })) }
    {
        let Some(hashed) = self.slots.get_mut(slot) else {
            return;
        };
        hashed.cell.closing = true;
    }

    /// The deactivation of the actor with this slot is over. If `may_begin` is true, its next call begins and makes it
    /// active again. If its cell isn't to be kept then, it is dropped.
    pub fn closed(&mut self, slot: usize, may_begin: bool) -> Option<u64>
        requires { IfSome (cell_of_slot self.old slot) (λ c. c.closing ≡ true) }
        ensures { IfSome (cell_of_slot self.old slot) (λ c. (result ≡ option_map call_of (next_call may_begin c.inner)) × (self.new.cells ≡ keep_cell self.old.cells (closed_cell c may_begin))) }
    {
        let Some(hashed) = self.slots.get_mut(slot) else {
            return None;
        };
        if hashed.cell.inner.waiting() == 0 {
            drop_at(&mut self.slots, &mut self.places, slot);
            return None;
        }
        let next = begin_if(&mut hashed.cell.inner, may_begin);
        hashed.cell.active = next.is_some();
        hashed.cell.closing = false;
        next
    }
}
