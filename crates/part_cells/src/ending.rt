// The end of a turn.
ghost use Rattle.std.specs.Prelude.{◌≡◌, IfSome};
ghost use Rattle.turn_core.specs.Cell.{cell_end};
ghost use Rattle.part_cells.specs.Slots.{cell_of_slot, ended_cell, EndsAt};

use crate::cells::Cells;
use turn_core::CellEnd;

impl Cells {
    /// The call's turn, in the cell with this slot, is over at this moment. If the actor is then free and `may_begin`
    /// is true, its next call begins.
    pub fn end(&mut self, slot: usize, call: u64, may_begin: bool, now: u64) -> CellEnd
        ensures { IfSome (cell_of_slot self.old slot) (λ c. (result ≡ (cell_end c.inner call may_begin).answer) × EndsAt result self.old.cells self.new.cells (ended_cell c call may_begin now)) }
    {
        let Some(hashed) = self.slots.get_mut(slot) else {
            return CellEnd::AlreadyEnded;
        };
        match hashed.cell.inner.end(call, may_begin) {
            CellEnd::Ended { next } => {
                hashed.cell.last = hashed.cell.last.max(now);
                self.calls.remove(call);
                self.count -= 1;
                CellEnd::Ended { next }
            }
            CellEnd::AlreadyEnded => CellEnd::AlreadyEnded,
            CellEnd::StillWaiting => CellEnd::StillWaiting,
        }
    }
}
