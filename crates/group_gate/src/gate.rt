// The gate: word 0 and slot 0 are the turn and the machine; word i and slot i are the place i. Word 0 is twice the number
// of entries, and one more while a seat has the turn.
ghost use Rattle.std.specs.Prelude.{◌≡◌, ◌+◌, ◌<◌, ◌≤◌};

use crate::grouped::Grouped;
use crate::hints::Hints;
use crate::view::{Held, View};
use atomic_table::{Table, TableRule};
use std::alloc::Global;
use std::snapshot::Snapshot;

/// What is true of a gate, whoever has the turn: there is one legal history, each seat knows a prefix of it, and each
/// place is free or has one owner, whose ask stands there until it is answered.
pub struct OneGroupHistory;

impl<M: Grouped> TableRule<Held<M, M::Ask, M::Answer>, View<M, M::Ask, M::Answer>, Snapshot<M>>
    for OneGroupHistory {
    ghost use Rattle.group_gate.specs.Kept.{Kept, newcomer};

    ghost holds = { λ key. Kept M.takes M.moves key.value };

    ghost first = { λ key. newcomer key.value };
}

/// What one caller knows about a gate. It has no bytes. Threads don't share a seat: each has its own, from `split_in`.
pub type GroupSeat<M> = atomic_table::Seat<
    Held<M, <M as Grouped>::Ask, <M as Grouped>::Answer>,
    View<M, <M as Grouped>::Ask, <M as Grouped>::Answer>,
>;

/// A place at a gate, from 1 up to the number of places. A place that is dropped is lost to the gate.
#[derive(Drop)]
pub struct Place {
    pub(crate) at: usize,
}

/// A machine behind a lock, at which callers share steps. Threads share it by reference.
#[derive(Drop)]
pub struct GroupGate<M: Grouped> {
    pub(crate) table: Table<
        Held<M, M::Ask, M::Answer>,
        View<M, M::Ask, M::Answer>,
        Snapshot<M>,
        OneGroupHistory,
        Global,
    >,
    pub(crate) hints: Hints,
    pub(crate) places: usize,
    ghost sized: { (table.shared.table_id.words ≡ places + 1) × (table.shared.table_id.slots ≡ places + 1) × (places ≤ 8192) },
}
