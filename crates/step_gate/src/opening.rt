// The first and the last thing that happen to a gate.
ghost use Rattle.std.specs.Prelude.{◌≡◌, [], List, IfOk};
ghost use mathlib.Core.List.{IsPrefix};
ghost use Rattle.step_gate.specs.declared.view.HistoryEntry.{HistoryEntry};
ghost use Rattle.step_gate.specs.History.{HistoryLeadsTo};
ghost use Rattle.step_gate.specs.Gates.{opening_of, seen_of, mine_of, IsSeatOf};

use crate::bells::Bells;
use crate::gate::{Gate, Seat};
use actor_names::OutOfMemory;
use atomic_table::{Refused, Table};
use state_machine::Machine;
use std::alloc::Global;
use std::snapshot::Snapshot;
use std::sync::Wait;

impl<M: Machine> Gate<M> {
    /// A gate round the machine, with an empty history, and its first seat. If memory runs out, the machine is dropped.
    pub fn new(alloc: Global, machine: M) -> Result<(Gate<M>, Seat<M>), OutOfMemory>
    where
        M: Drop,
        ensures seat { IfOk result (λ g. IsSeatOf M.moves g.0 g.1) }
        ensures opening { IfOk result (λ g. opening_of g.0 ≡ machine) }
        ensures empty { IfOk result (λ g. (seen_of g.1 ≡ []) × (mine_of g.1 ≡ [])) }
    {
        let opening = Snapshot::of(&machine);
        let bells = Bells::new(alloc)?;
        let mut slots = Vec::with_capacity(alloc, 1)?;
        slots.push_reserved(machine);
        match Table::new(alloc, &[0], slots, &opening) {
            Ok((table, seat)) => Ok((Gate { table, bells }, seat)),
            Err(Refused { slots: _ }) => Err(OutOfMemory),
        }
    }

    /// Waits for the turn, and returns the machine's value. The gate is consumed, so no call can follow.
    pub fn close<R: Wait>(self, rt: &R, mut seat: Seat<M>) -> M
        requires { IsSeatOf M.moves self seat }
        ensures { (h : List (HistoryEntry M.Event M.Reply)) × IsPrefix (seen_of seat) h × HistoryLeadsTo M.moves (opening_of self) h result }
    {
        let at = self.take(rt, &mut seat);
        self.shut(&mut seat, at);
        let Gate { table, bells: _ } = self;
        let mut closed = table.close_with(seat);
        let machine = closed.take(0);
        closed.free();
        machine
    }
}
