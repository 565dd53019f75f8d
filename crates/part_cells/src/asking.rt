// A call that is asked of an actor with a cell.
ghost use Rattle.std.specs.Prelude.{◌≡◌, ◌<◌, ◌^◌, ◌&&◌, not, None, IfSome, IsSome};
ghost use Rattle.std.specs.Option.{option_copied};
ghost use Rattle.turn_core.specs.Cell.{admit_call};
ghost use Rattle.part_model.specs.Cells.{cell_of_call, total_calls};
ghost use Rattle.part_cells.specs.Slots.{cell_of_slot, AsksAt};

use crate::cells::Cells;
use actor_names::ChainId;
use part_model::ActorCell;
use std::alloc::Global;
use turn_core::{Asked, CellError};

/// Whether a new chain may begin in the cell: in a closing one none does.
fn begins_in(cell: &ActorCell, may_begin: bool) -> bool
    ensures { result ≡ (may_begin && not cell.now.closing) }
{
    may_begin && !cell.closing
}

impl Cells {
    /// Asks the cell with this slot for a turn of a new call. `may_begin` says whether a new chain may begin; in a
    /// closing cell none does. A call that is refused touches neither the cell nor the index.
    pub fn ask(
        &mut self,
        alloc: Global,
        slot: usize,
        call: u64,
        chain: Option<&ChainId>,
        may_begin: bool,
    ) -> Result<Asked, CellError>
        requires there { IsSome (cell_of_slot self.old slot) }
        requires fresh { cell_of_call self.old.cells call ≡ None }
        requires chained { IfSome (cell_of_slot self.old slot) (λ c. 0 < c.inner.depth → IsSome chain) }
        requires few { total_calls self.old.cells < 2 ^ 62 }
        ensures { IfSome (cell_of_slot self.old slot) (λ c. AsksAt result self.old.cells self.new.cells c (admit_call c.inner call (option_copied chain.entry) (may_begin && not c.closing))) }
    {
        let Some(hashed) = self.slots.get_mut(slot) else {
            return Err(CellError::OutOfMemory);
        };
        let begins = begins_in(&hashed.cell, may_begin);
        if let Err(refusal) = hashed.cell.inner.admission(chain, begins) {
            return Err(refusal);
        }
        let Ok(()) = self.calls.add(call, slot) else {
            return Err(CellError::OutOfMemory);
        };
        match hashed.cell.inner.ask(alloc, call, chain, begins) {
            Ok(Asked::Begun) => {
                hashed.cell.active = true;
                self.count += 1;
                Ok(Asked::Begun)
            }
            Ok(Asked::Waits { place }) => {
                self.count += 1;
                Ok(Asked::Waits { place })
            }
            Err(_) => {
                self.calls.remove(call);
                Err(CellError::OutOfMemory)
            }
        }
    }
}
