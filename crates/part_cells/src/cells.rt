// Cells in slots: found by key through a map in order of key, and by call through an index.
ghost use Rattle.std.specs.Prelude.{◌≡◌, None, Some, [], length, MatchOption};
ghost use Rattle.place_table.specs.Hosts.{key_place};
ghost use Rattle.part_model.specs.Cells.{cell_at, cell_of_call, total_calls};
ghost use Rattle.part_cells.specs.Slots.{IsFoundAt};

use crate::call_slots::CallSlots;
use crate::guesses::Guesses;
use crate::hashed_cell::HashedCell;
use actor_names::ActorKey;
use part_model::ActorCell;
use slab::Slab;
use std::alloc::Global;
use std::collections::BTreeMap;
use std::marker::Model;

/// The cells of a part, in order of key. A cell keeps its slot from the event that adds it until it is dropped. The
/// index has each call that is open or waits and no other, and their number is kept.
#[derive(Drop)]
pub struct Cells {
    pub(crate) slots: Slab<HashedCell>,
    pub(crate) places: BTreeMap<ActorKey, usize>,
    pub(crate) calls: CallSlots,
    pub(crate) count: usize,
    pub(crate) guesses: Guesses,
}

impl Model for Cells {
    ghost use Rattle.slab.specs.Slab.{get};
    ghost use Rattle.part_cells.specs.Slots.{slot_of, cells_in, CellsView, AreSlotsKept};

    ghost Value = { CellsView };

    ghost view = { λ a. record { cells = cells_in (get a.slots) a.places.entries; slots = a.slots.slots } };

    ghost invariant = { λ a. AreSlotsKept (get a.slots) a.places.entries (slot_of a.calls) a.count };
}

impl Cells {
    /// No cell; takes no memory.
    pub fn new(alloc: Global) -> Cells
        ensures { result.cells ≡ [] }
    {
        Cells {
            slots: Slab::new(alloc),
            places: BTreeMap::new(alloc),
            calls: CallSlots::new(alloc),
            count: 0,
            guesses: Guesses::new(alloc),
        }
    }

    /// How many calls are open or wait.
    pub fn count(&self) -> usize
        ensures { result ≡ total_calls self.now.cells }
    {
        self.count
    }

    /// How many cells there are.
    pub fn len(&self) -> usize
        ensures { result ≡ length self.now.cells }
    {
        self.places.len()
    }

    /// The same as `find`, without a guess.
    fn find_placed(&self, key: &ActorKey) -> Option<(usize, &ActorCell, u64)>
        ensures { MatchOption result (cell_at self.now.cells key.now ≡ None) (λ f. (cell_at self.now.cells key.now ≡ Some f.1.now) × IsFoundAt self.now f.0 f.1.now × (f.2 ≡ key_place f.1.now.key.id)) }
    {
        let Some(slot) = self.places.get(key) else {
            return None;
        };
        let Some(hashed) = self.slots.get(*slot) else {
            return None;
        };
        Some((*slot, &hashed.cell, hashed.hash))
    }

    /// The actor's cell, with its slot and the `key_hash` of the actor's id.
    pub fn find(&self, key: &ActorKey) -> Option<(usize, &ActorCell, u64)>
        ensures { MatchOption result (cell_at self.now.cells key.now ≡ None) (λ f. (cell_at self.now.cells key.now ≡ Some f.1.now) × IsFoundAt self.now f.0 f.1.now × (f.2 ≡ key_place f.1.now.key.id)) }
    {
        let guess = self.guesses.slot(key);
        if let Some(hashed) = self.slots.get(guess)
            && hashed.cell.key == *key
        {
            return Some((guess, &hashed.cell, hashed.hash));
        }
        self.find_placed(key)
    }

    /// The cell that has this call, open or in its queue, with its slot and the `key_hash` of its actor's id.
    pub fn find_call(&self, call: u64) -> Option<(usize, &ActorCell, u64)>
        ensures { MatchOption result (cell_of_call self.now.cells call ≡ None) (λ f. (cell_of_call self.now.cells call ≡ Some f.1.now) × IsFoundAt self.now f.0 f.1.now × (f.2 ≡ key_place f.1.now.key.id)) }
    {
        let Some(slot) = self.calls.slot(call) else {
            return None;
        };
        let Some(hashed) = self.slots.get(slot) else {
            return None;
        };
        Some((slot, &hashed.cell, hashed.hash))
    }
}
