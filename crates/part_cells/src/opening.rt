// The opening of a part: the next calls of some cells begin, and the waiting calls of all others are moved.
ghost use Rattle.std.specs.Prelude.{◌≡◌, ◌+◌, ◌≤◌, [], ◌∷◌, ◌++◌, length, map, option_map, vec_len, vec_capacity};
ghost use Rattle.slab.specs.Slab.{get};
ghost use Rattle.place_table.specs.Hosts.{key_place};
ghost use Rattle.turn_core.specs.Cell.{call_of, next_call, begun_next};
ghost use Rattle.part_model.specs.Cells.{calls_in, total, total_calls};
ghost use Rattle.part_cells.specs.Slots.{slot_of, cells_in, AreSlotsKept, IsVisited, each_list, number_at, opened_cell, opened_calls, opened_moved};

use crate::call_slots::CallSlots;
use crate::cells::Cells;
use crate::hashed_cell::HashedCell;
use crate::passes::CellTest;
use actor_names::ActorKey;
use part_model::ActorCell;
use slab::Slab;
use std::collections::BTreeMap;
use turn_core::Cell;

/// Begins the first call in the queue that isn't moved, if `may_begin` is true and no turn is open.
pub(crate) fn begin_if(cell: &mut Cell, may_begin: bool) -> Option<u64>
    ensures answer { result ≡ option_map call_of (next_call may_begin cell.old) }
    ensures cell { cell.new ≡ begun_next cell.old (next_call may_begin cell.old) }
{
    if may_begin && cell.turns() == 0 {
        cell.begin_next()
    } else {
        None
    }
}

/// Appends the call to a list that has room for it.
fn list_call(calls: &mut Vec<u64>, call: u64)
    requires { vec_len calls.old + 1 ≤ vec_capacity calls.old }
    ensures items { calls.new.items ≡ calls.old.items ++ call ∷ [] }
    ensures room { vec_capacity calls.old ≤ vec_capacity calls.new }
{
    match calls.push(call) {
        Ok(()) => {}
        Err(_) => unreachable!(),
    }
}

/// What the opening does to one cell; returns how many calls it moves. The test is asked only if a call waits.
fn open_cell<T: CellTest>(own: &T, cell: &mut ActorCell, hash: u64, begun: &mut Vec<u64>) -> u32
    requires hashed { hash ≡ key_place cell.old.key.id }
    requires room { vec_len begun.old + calls_in cell.old ≤ vec_capacity begun.old }
    ensures cell { cell.new ≡ opened_cell (T.holds own.now) cell.old }
    ensures begun { begun.new.items ≡ begun.old.items ++ opened_calls (T.holds own.now) cell.old }
    ensures moved { result ≡ opened_moved (T.holds own.now) cell.old }
    ensures few { result ≤ 1024 }
    ensures room { vec_capacity begun.old ≤ vec_capacity begun.new }
{
    if cell.inner.waiting() == 0 {
        return 0;
    }
    if !own.holds(cell, hash) {
        return cell.inner.move_waiting();
    }
    match begin_if(&mut cell.inner, !cell.closing) {
        None => 0,
        Some(call) => {
            cell.active = true;
            list_call(begun, call);
            0
        }
    }
}

/// What the opening does to the cell in one slot.
fn open_at<T: CellTest>(
    slots: &mut Slab<HashedCell>,
    _calls: &CallSlots,
    _count: &usize,
    _places: &BTreeMap<ActorKey, usize>,
    slot: usize,
    own: &T,
    begun: &mut Vec<u64>,
) -> u32
    requires kept { AreSlotsKept (get slots.old) _places.now.entries (slot_of _calls.now) _count.now }
    requires room { vec_len begun.old + number_at calls_in (get slots.old slot) ≤ vec_capacity begun.old }
    ensures visited { IsVisited (opened_cell (T.holds own.now)) (opened_calls (T.holds own.now)) (opened_moved (T.holds own.now)) (get slots.old) (get slots.new) slot begun.old.items begun.new.items result }
    ensures kept { AreSlotsKept (get slots.new) _places.now.entries (slot_of _calls.now) _count.now }
    ensures few { result ≤ 1024 }
    ensures room { vec_capacity begun.old ≤ vec_capacity begun.new }
{
    let Some(hashed) = slots.get_mut(slot) else {
        return 0;
    };
    open_cell(own, &mut hashed.cell, hashed.hash, begun)
}

/// What the opening does to every cell, one after another.
fn open_all<T: CellTest>(
    slots: &mut Slab<HashedCell>,
    calls: &CallSlots,
    count: &usize,
    places: &BTreeMap<ActorKey, usize>,
    own: &T,
    begun: &mut Vec<u64>,
) -> u32
    requires few { length places.now.entries ≤ 65536 }
    requires kept { AreSlotsKept (get slots.old) places.now.entries (slot_of calls.now) count.now }
    requires room { vec_len begun.old + total_calls (cells_in (get slots.old) places.now.entries) ≤ vec_capacity begun.old }
    ensures cells { cells_in (get slots.new) places.now.entries ≡ map (opened_cell (T.holds own.now)) (cells_in (get slots.old) places.now.entries) }
    ensures begun { begun.new.items ≡ begun.old.items ++ each_list (opened_calls (T.holds own.now)) (cells_in (get slots.old) places.now.entries) }
    ensures moved { result ≡ total (opened_moved (T.holds own.now)) (cells_in (get slots.old) places.now.entries) }
    ensures kept { AreSlotsKept (get slots.new) places.now.entries (slot_of calls.now) count.now }
    ensures room { vec_capacity begun.old ≤ vec_capacity begun.new }
{
    let mut moved = 0u32;
    for (_, slot) in places {
        moved += open_at(slots, calls, count, places, *slot, own, begun);
    }
    moved
}

impl Cells {
    /// In each cell for which the test holds and that is free and isn't closing, the next call begins and is appended to
    /// the list; in each other cell the waiting calls are moved. Returns how many were moved; takes no memory.
    pub fn open<T: CellTest>(&mut self, own: &T, begun: &mut Vec<u64>) -> u32
        requires few { length self.old.cells ≤ 65536 }
        requires room { vec_len begun.old + total_calls self.old.cells ≤ vec_capacity begun.old }
        ensures cells { self.new.cells ≡ map (opened_cell (T.holds own.now)) self.old.cells }
        ensures begun { begun.new.items ≡ begun.old.items ++ each_list (opened_calls (T.holds own.now)) self.old.cells }
        ensures moved { result ≡ total (opened_moved (T.holds own.now)) self.old.cells }
        ensures calls { total_calls self.new.cells ≡ total_calls self.old.cells }
        ensures room { vec_capacity begun.old ≤ vec_capacity begun.new }
    {
        open_all(
            &mut self.slots,
            &self.calls,
            &self.count,
            &self.places,
            own,
            begun,
        )
    }
}
