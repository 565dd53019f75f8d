// The points that a table keeps for a type, and the one of them that owns a place.
ghost use Rattle.std.specs.Prelude.{◌≡◌, ◌+◌, ◌-◌, ◌*◌, ◌^◌, ◌≤◌, length, nat_le, IsPermutation, IsSorted};
ghost use Rattle.std.specs.List.{position_or_len};
ghost use Rattle.std.specs.List.Sorted.{IsNonDecreasingBy};
ghost use Rattle.place_table.specs.Tables.{kept_slots, slot_cmp, next_slot};

use crate::steps::Steps;
use crate::table::{Slot, TypeRing};
use actor_names::ActorType;
use std::sync::ledger::Ledger;

// The points that are kept for the type.
pub(crate) fn ring_slots<'a>(rings: &'a [TypeRing], kind: &ActorType) -> &'a [Slot]
    ensures { result.now ≡ kept_slots kind.now rings.now }
{
    for ring in rings {
        if ring.kind.as_slice() == kind.as_slice() {
            return ring.slots.as_slice();
        }
    }
    &[]
}

// Sorts points by place, then by their hosts' numbers; takes no memory.
pub(crate) fn sort_slots(slots: &mut Vec<Slot>)
    ensures same { IsPermutation slots.old.items slots.new.items }
    ensures sorted { IsSorted slot_cmp slots.new.items }
{
    slots.sort_unstable_by(|a, b| a.place.cmp(&b.place).then(a.host.cmp(&b.host)));
}

// Looks at a point: tests whether it is at or after the place.
fn is_from<L: Ledger>(slot: Slot, place: u64, steps: &mut Steps<L>) -> bool
    ensures from { result ≡ nat_le place slot.place }
    ensures one { steps.new ≡ steps.old + 1 }
{
    steps.tick();
    place <= slot.place
}

// The index of the first point at or after the place, or else the number of points. They are in order of place, and
// each look halves those that remain.
fn first_from<L: Ledger>(slots: &[Slot], place: u64, steps: &mut Steps<L>) -> usize
    requires { IsNonDecreasingBy (λ s. s.place) slots.now }
    ensures first { result ≡ position_or_len (λ s. nat_le place s.place) slots.now }
    ensures counted { steps.old ≤ steps.new }
    ensures probes { 2 ^ (steps.new - steps.old) ≤ 2 * length slots.now + 2 }
{
    let mut low = 0;
    let mut high = slots.len();
    while low < high {
        let mid = low + (high - low) / 2;
        if is_from(slots[mid], place, steps) {
            high = mid;
        } else {
            low = mid + 1;
        }
    }
    low
}

// The kept point that owns the place.
pub(crate) fn owner_slot<L: Ledger>(
    slots: &[Slot],
    place: u64,
    steps: &mut Steps<L>,
) -> Option<Slot>
    requires { IsNonDecreasingBy (λ s. s.place) slots.now }
    ensures owner { result ≡ next_slot slots.now place }
    ensures counted { steps.old ≤ steps.new }
    ensures probes { 2 ^ (steps.new - steps.old) ≤ 2 * length slots.now + 2 }
{
    let first = first_from(slots, place, steps);
    match slots.get(first) {
        Some(slot) => Some(*slot),
        None => slots.first().copied(),
    }
}
