// A new cell.
ghost use Rattle.std.specs.Prelude.{◌≡◌, ℕ, ◌<◌, ◌^◌, ◌==◌, None, OnOk, OnErr};
ghost use Rattle.place_table.specs.Hosts.{key_place};
ghost use Rattle.turn_core.specs.Cell.{is_in_cell};
ghost use Rattle.part_model.specs.Cells.{cell_at, cell_of_call, keep_cell, calls_in, total_calls};
ghost use Rattle.part_cells.specs.Slots.{IsSettled};

use crate::cells::Cells;
use crate::hashed_cell::HashedCell;
use actor_names::OutOfMemory;
use part_model::ActorCell;
use std::alloc::Global;

impl Cells {
    /// Adds a cell of a new key with its first call. `hash` is the `key_hash` of the actor's id. If memory runs out,
    /// nothing changes.
    pub fn add(
        &mut self,
        alloc: Global,
        cell: ActorCell,
        hash: u64,
        call: u64,
    ) -> Result<(), OutOfMemory>
        requires hashed { hash ≡ key_place cell.key.id }
        requires absent { cell_at self.old.cells cell.key ≡ None }
        requires fresh { cell_of_call self.old.cells call ≡ None }
        requires first { (n : ℕ) → is_in_cell n cell.inner ≡ (n == call) }
        requires one { calls_in cell ≡ 1 }
        requires settled { IsSettled cell }
        requires few { total_calls self.old.cells < 2 ^ 62 }
        ensures ok { OnOk result (self.new.cells ≡ keep_cell self.old.cells cell) }
        ensures err { OnErr result (self.new.cells ≡ self.old.cells) }
    {
        let key = cell.key.copy(alloc)?;
        self.slots.reserve(1)?;
        let slot = self.slots.vacant_key();
        self.calls.add(call, slot)?;
        match self.places.insert(key, slot) {
            Ok(_) => {
                self.guesses.note(&cell.key, slot, &self.places);
                let _slot = self.slots.insert_reserved(HashedCell { cell, hash });
                self.count += 1;
                Ok(())
            }
            Err(_) => {
                self.calls.remove(call);
                Err(OutOfMemory)
            }
        }
    }
}
