// The end of open turns, in every cell for which a test holds.
ghost use Rattle.std.specs.Prelude.{◌≡◌, ◌+◌, ◌≤◌, ◌++◌, length, map, vec_len, vec_capacity};
ghost use Rattle.slab.specs.Slab.{get};
ghost use Rattle.part_model.specs.Cells.{calls_in, total, total_calls};
ghost use Rattle.part_cells.specs.Slots.{slot_of, cells_in, AreSlotsKept, IsVisited, each_list, number_at, late_cell, late_calls, late_number};

use crate::call_slots::CallSlots;
use crate::cells::Cells;
use crate::hashed_cell::HashedCell;
use crate::passes::CellTest;
use actor_names::ActorKey;
use slab::Slab;
use std::collections::BTreeMap;

/// The open turns of one slot's cell end if the test holds for it: their calls leave the index and are put at the end
/// of the list. Returns how many they are.
fn drain_at<T: CellTest>(
    slots: &mut Slab<HashedCell>,
    calls: &mut CallSlots,
    count: &mut usize,
    _places: &BTreeMap<ActorKey, usize>,
    slot: usize,
    late: &T,
    now: u64,
    ended: &mut Vec<u64>,
) -> u32
    requires kept { AreSlotsKept (get slots.old) _places.now.entries (slot_of calls.old) count.old }
    requires room { vec_len ended.old + number_at calls_in (get slots.old slot) ≤ vec_capacity ended.old }
    ensures visited { IsVisited (late_cell (T.holds late.now) now) (late_calls (T.holds late.now)) (late_number (T.holds late.now)) (get slots.old) (get slots.new) slot ended.old.items ended.new.items result }
    ensures kept { AreSlotsKept (get slots.new) _places.now.entries (slot_of calls.new) count.new }
    ensures few { result ≤ 1024 }
    ensures room { vec_capacity ended.old ≤ vec_capacity ended.new }
{
    let Some(hashed) = slots.get_mut(slot) else {
        return 0;
    };
    if !late.holds(&hashed.cell, hashed.hash) {
        return 0;
    }
    let from = ended.len();
    let over = hashed.cell.inner.turns();
    hashed.cell.inner.list_turns(ended);
    hashed.cell.last = hashed.cell.last.max(now);
    let _ended = hashed.cell.inner.end_all();
    *count -= over as usize;
    calls.forget(&ended.as_slice()[from..]);
    over
}

/// The open turns of every cell for which the test holds end, one cell after another.
fn drain_all<T: CellTest>(
    slots: &mut Slab<HashedCell>,
    calls: &mut CallSlots,
    count: &mut usize,
    places: &BTreeMap<ActorKey, usize>,
    late: &T,
    now: u64,
    ended: &mut Vec<u64>,
) -> u32
    requires few { length places.now.entries ≤ 65536 }
    requires kept { AreSlotsKept (get slots.old) places.now.entries (slot_of calls.old) count.old }
    requires room { vec_len ended.old + total_calls (cells_in (get slots.old) places.now.entries) ≤ vec_capacity ended.old }
    ensures cells { cells_in (get slots.new) places.now.entries ≡ map (late_cell (T.holds late.now) now) (cells_in (get slots.old) places.now.entries) }
    ensures ended { ended.new.items ≡ ended.old.items ++ each_list (late_calls (T.holds late.now)) (cells_in (get slots.old) places.now.entries) }
    ensures number { result ≡ total (late_number (T.holds late.now)) (cells_in (get slots.old) places.now.entries) }
    ensures kept { AreSlotsKept (get slots.new) places.now.entries (slot_of calls.new) count.new }
    ensures room { vec_capacity ended.old ≤ vec_capacity ended.new }
{
    let mut over = 0u32;
    for (_, slot) in places {
        over += drain_at(slots, calls, count, places, *slot, late, now, ended);
    }
    over
}

impl Cells {
    /// The open turns of each cell for which the test holds end at this moment, and their calls are appended to the
    /// list. Returns how many they are; takes no memory.
    pub fn drain<T: CellTest>(&mut self, late: &T, now: u64, ended: &mut Vec<u64>) -> u32
        requires few { length self.old.cells ≤ 65536 }
        requires room { vec_len ended.old + total_calls self.old.cells ≤ vec_capacity ended.old }
        ensures cells { self.new.cells ≡ map (late_cell (T.holds late.now) now) self.old.cells }
        ensures ended { ended.new.items ≡ ended.old.items ++ each_list (late_calls (T.holds late.now)) self.old.cells }
        ensures number { result ≡ total (late_number (T.holds late.now)) self.old.cells }
        ensures room { vec_capacity ended.old ≤ vec_capacity ended.new }
    {
        drain_all(
            &mut self.slots,
            &mut self.calls,
            &mut self.count,
            &self.places,
            late,
            now,
            ended,
        )
    }
}
