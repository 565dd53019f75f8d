// The end of every turn and of every cell.
ghost use Rattle.std.specs.Prelude.{◌≡◌, ◌+◌, ◌≤◌, ◌++◌, [], vec_len, vec_capacity};
ghost use Rattle.slab.specs.Slab.{get};
ghost use Rattle.part_model.specs.Cells.{calls_in, total_calls};
ghost use Rattle.part_cells.specs.Slots.{cells_in, each_list, list_at, number_at, open_calls};

use crate::cells::Cells;
use crate::hashed_cell::HashedCell;
use actor_names::ActorKey;
use slab::Slab;
use std::alloc::Global;
use std::collections::BTreeMap;

/// Appends the calls of the open turns of one slot's cell to the list.
fn list_slot(slots: &Slab<HashedCell>, slot: usize, calls: &mut Vec<u64>)
    requires { vec_len calls.old + number_at calls_in (get slots.now slot) ≤ vec_capacity calls.old }
    ensures calls { calls.new.items ≡ calls.old.items ++ list_at open_calls (get slots.now slot) }
    ensures room { vec_capacity calls.old ≤ vec_capacity calls.new }
{
    let Some(hashed) = slots.get(slot) else {
        return;
    };
    hashed.cell.inner.list_turns(calls);
}

/// Appends the calls of all open turns to the list, cell by cell.
fn list_all(slots: &Slab<HashedCell>, places: &BTreeMap<ActorKey, usize>, calls: &mut Vec<u64>)
    requires { vec_len calls.old + total_calls (cells_in (get slots.now) places.now.entries) ≤ vec_capacity calls.old }
    ensures { calls.new.items ≡ calls.old.items ++ each_list open_calls (cells_in (get slots.now) places.now.entries) }
{
    for (_, slot) in places {
        list_slot(slots, *slot, calls);
    }
}

impl Cells {
    /// Every turn ends and every cell is dropped. The calls of the turns are appended to the list, cell by cell; takes
    /// no memory.
    pub fn stop(&mut self, alloc: Global, ended: &mut Vec<u64>)
        requires { vec_len ended.old + total_calls self.old.cells ≤ vec_capacity ended.old }
        ensures cells { self.new.cells ≡ [] }
        ensures ended { ended.new.items ≡ ended.old.items ++ each_list open_calls self.old.cells }
    {
        list_all(&self.slots, &self.places, ended);
        *self = Cells::new(alloc);
    }
}
