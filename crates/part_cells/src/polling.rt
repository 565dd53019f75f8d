// A moved call that is polled leaves its queue.
ghost use Rattle.std.specs.Prelude.{◌≡◌, ◌&&◌, not, nat_le, length, IfSome};
ghost use Rattle.turn_core.specs.Cell.{cell_poll};
ghost use Rattle.part_model.specs.Cells.{keep_cell};
ghost use Rattle.part_cells.specs.Slots.{cell_of_slot};

use crate::cells::Cells;
use crate::dropping::drop_at;
use part_model::ActorCell;
use turn_core::CellPoll;

/// Whether the actor isn't active and at most one call waits.
fn is_last(cell: &ActorCell) -> bool
    ensures { result ≡ (not cell.now.active && nat_le (length cell.now.inner.queue) 1) }
{
    !cell.active && cell.inner.waiting() <= 1
}

impl Cells {
    /// Takes a moved call off its queue, in the cell with this slot. If the cell isn't to be kept then, it is dropped.
    pub fn take_moved(&mut self, slot: usize, call: u64)
        requires { IfSome (cell_of_slot self.old slot) (λ c. (cell_poll c.inner call).answer ≡ CellPoll.Moved) }
        ensures { IfSome (cell_of_slot self.old slot) (λ c. self.new.cells ≡ keep_cell self.old.cells (record c { inner = (cell_poll c.inner call).cell })) }
    {
        let Some(hashed) = self.slots.get_mut(slot) else {
            return;
        };
        self.calls.remove(call);
        self.count -= 1;
        if is_last(&hashed.cell) {
            drop_at(&mut self.slots, &mut self.places, slot);
            return;
        }
        let _moved = hashed.cell.inner.poll(call);
    }
}
