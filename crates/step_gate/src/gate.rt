// The gate: one word and one slot, which holds the machine. The word is twice the number of entries, and one more
// while a seat has the turn.
ghost use Rattle.std.specs.Prelude.{◌≡◌};

use crate::bells::Bells;
use crate::view::View;
use atomic_table::{Table, TableRule};
use state_machine::Machine;
use std::alloc::Global;
use std::snapshot::Snapshot;
use thiserror::Error;

/// No further step can be made: the history has 2^62 entries.
#[derive(Clone, Copy, Debug, PartialEq, Eq, Error)]
#[error("{count} steps were made, and no more can be")]
pub struct Spent {
    /// How many steps there were.
    pub count: u64,
}

/// What is true of a gate, whoever has the turn: there is one legal history, and each seat knows a prefix of it.
pub struct OneHistory;

impl<M: Machine> TableRule<M, View<M, M::Event, M::Reply>, Snapshot<M>> for OneHistory {
    ghost use Rattle.step_gate.specs.Kept.{Kept, newcomer};

    ghost holds = { λ key. Kept M.moves key.value };

    ghost first = { λ key. newcomer key.value };
}

/// What one caller knows about a gate, and its permission to step there. It has no bytes. Threads don't share a seat:
/// each has its own, from `split`.
pub type Seat<M> = atomic_table::Seat<M, View<M, <M as Machine>::Event, <M as Machine>::Reply>>;

/// A machine behind a lock. Threads share it by reference, and step by `call`, each with its own seat.
#[derive(Drop)]
pub struct Gate<M: Machine> {
    pub(crate) table: Table<M, View<M, M::Event, M::Reply>, Snapshot<M>, OneHistory, Global>,
    pub(crate) bells: Bells,
    ghost sized: { (table.shared.table_id.words ≡ 1) × (table.shared.table_id.slots ≡ 1) },
}
