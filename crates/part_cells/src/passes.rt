// Questions about every cell, in order of key.
ghost use Rattle.std.specs.Prelude.{◌≡◌, ◌<◌, ◌≤◌, ◌^◌, Bool, [], None, Some, length, IfSome, MatchOption};
ghost use Rattle.std.specs.Option.{option_copied};
ghost use Rattle.slab.specs.Slab.{get};
ghost use Rattle.part_model.specs.Cells.{total};
ghost use Rattle.part_cells.specs.Slots.{cells_in, with_found, first_where, one_where, number_at, least_of, lesser_at, IsFoundAt};

use crate::cells::Cells;
use crate::hashed_cell::HashedCell;
use actor_names::ActorKey;
use part_model::ActorCell;
use slab::Slab;
use std::collections::BTreeMap;

/// A question about one cell.
pub trait CellTest {
    ghost use Rattle.place_table.specs.Hosts.{key_place};
    ghost use Rattle.part_model.specs.declared.actor_cell.ActorCell.{ActorCell};

    /// Whether the answer is yes.
    ghost holds: { Self → ActorCell → Bool };

    /// The same; `hash` is the `key_hash` of its actor's id.
    fn holds(&self, cell: &ActorCell, hash: u64) -> bool
        requires { hash ≡ key_place cell.now.key.id }
        ensures { result ≡ holds self.now cell.now };
}

/// The cell in the slot, if the test holds for it.
fn held_at<'a, T: CellTest>(
    slots: &'a Slab<HashedCell>,
    slot: usize,
    test: &T,
) -> Option<&'a ActorCell>
    ensures first { option_copied result ≡ first_where (T.holds test.now) (with_found (get slots.now slot) []) }
    ensures there { IfSome result (λ c. get slots.now slot ≡ Some c.now) }
{
    match slots.get(slot) {
        None => None,
        Some(hashed) => {
            if test.holds(&hashed.cell, hashed.hash) {
                Some(&hashed.cell)
            } else {
                None
            }
        }
    }
}

/// The first cell for which the test holds, with its slot.
fn first_in<'a, T: CellTest>(
    slots: &'a Slab<HashedCell>,
    places: &BTreeMap<ActorKey, usize>,
    test: &T,
) -> Option<(usize, &'a ActorCell)>
    ensures { MatchOption result (first_where (T.holds test.now) (cells_in (get slots.now) places.now.entries) ≡ None) (λ f. (first_where (T.holds test.now) (cells_in (get slots.now) places.now.entries) ≡ Some f.1.now) × (get slots.now f.0 ≡ Some f.1.now)) }
{
    for (_, slot) in places {
        if let Some(cell) = held_at(slots, *slot, test) {
            return Some((*slot, cell));
        }
    }
    None
}

/// One if there is a cell in the slot and the test holds for it, else zero.
fn count_at<T: CellTest>(slots: &Slab<HashedCell>, slot: usize, test: &T) -> usize
    ensures count { result ≡ number_at (one_where (T.holds test.now)) (get slots.now slot) }
    ensures few { result ≤ 1 }
{
    match slots.get(slot) {
        None => 0,
        Some(hashed) => {
            if test.holds(&hashed.cell, hashed.hash) {
                1
            } else {
                0
            }
        }
    }
}

/// For how many cells the test holds.
fn count_in<T: CellTest>(
    slots: &Slab<HashedCell>,
    places: &BTreeMap<ActorKey, usize>,
    test: &T,
) -> usize
    requires { length places.now.entries < 2 ^ 62 }
    ensures { result ≡ total (one_where (T.holds test.now)) (cells_in (get slots.now) places.now.entries) }
{
    let mut count = 0usize;
    for (_, slot) in places {
        count += count_at(slots, *slot, test);
    }
    count
}

/// A number that each cell has.
pub trait CellNumber {
    ghost use Rattle.std.specs.Prelude.{ℕ};
    ghost use Rattle.part_model.specs.declared.actor_cell.ActorCell.{ActorCell};

    /// The number.
    ghost number: { Self → ActorCell → ℕ };

    /// The same.
    fn number(&self, cell: &ActorCell) -> u64
        ensures { result ≡ number self.now cell.now };
}

/// The lesser of a number and that of the cell in the slot, if there is one.
fn least_at<N: CellNumber>(slots: &Slab<HashedCell>, slot: usize, number: &N, least: u64) -> u64
    ensures { result ≡ lesser_at (N.number number.now) (get slots.now slot) least }
{
    match slots.get(slot) {
        None => least,
        Some(hashed) => least.min(number.number(&hashed.cell)),
    }
}

/// The least of the numbers of the cells, or `u64::MAX` if there is no cell.
fn least_in<N: CellNumber>(
    slots: &Slab<HashedCell>,
    places: &BTreeMap<ActorKey, usize>,
    number: &N,
) -> u64
    ensures { result ≡ least_of (N.number number.now) (cells_in (get slots.now) places.now.entries) }
{
    let mut least = u64::MAX;
    for (_, slot) in places {
        least = least_at(slots, *slot, number, least);
    }
    least
}

impl Cells {
    /// The first cell, in order of key, for which the test holds, with its slot; takes no memory.
    pub fn first<T: CellTest>(&self, test: &T) -> Option<(usize, &ActorCell)>
        ensures { MatchOption result (first_where (T.holds test.now) self.now.cells ≡ None) (λ f. (first_where (T.holds test.now) self.now.cells ≡ Some f.1.now) × IsFoundAt self.now f.0 f.1.now) }
    {
        first_in(&self.slots, &self.places, test)
    }

    /// For how many cells the test holds; takes no memory.
    pub fn count_where<T: CellTest>(&self, test: &T) -> usize
        requires { length self.now.cells < 2 ^ 62 }
        ensures { result ≡ total (one_where (T.holds test.now)) self.now.cells }
    {
        count_in(&self.slots, &self.places, test)
    }

    /// The least of the numbers of the cells, or `u64::MAX` if there is no cell; takes no memory.
    pub fn least<N: CellNumber>(&self, number: &N) -> u64
        ensures { result ≡ least_of (N.number number.now) self.now.cells }
    {
        least_in(&self.slots, &self.places, number)
    }
}
