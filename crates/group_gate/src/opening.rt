// The first and the last thing that happen to a gate.
ghost use Rattle.std.specs.Prelude.{◌≡◌, ◌+◌, ◌≤◌, [], ◌∷◌, List, replicate, IfOk};
ghost use Rattle.std.specs.Mem.Slots.{slots_items, IsFull};
ghost use mathlib.Core.List.{IsPrefix};
ghost use mathlib.Core.Option.{some};
ghost use lib.ListN.{get_elem?};
ghost use Rattle.group_gate.specs.declared.view.Core.{Core};
ghost use Rattle.group_gate.specs.declared.view.GroupEntry.{GroupEntry};
ghost use Rattle.group_gate.specs.declared.view.Held.TheVariants.{Machine, Nothing};
ghost use Rattle.group_gate.specs.History.{HistoryLeadsTo};
ghost use Rattle.group_gate.specs.declared.view.Turn.TheVariants.{Shut};
ghost use Rattle.group_gate.specs.Kept.{IsReady, holding};
ghost use Rattle.group_gate.specs.Gates.{gate_id, opening_of, seen_of, IsSeatOf};

use crate::gate::{GroupGate, GroupSeat};
use crate::grouped::Grouped;
use crate::hints::Hints;
use crate::turn::LAST;
use crate::view::{Core, Held};
use actor_names::OutOfMemory;
use atomic_table::{Closed, Refused, Table};
use std::alloc::{AllocError, Global};
use std::snapshot::Snapshot;
use std::sync::Wait;

// What the slots hold at first: the machine with empty lists, and nothing at each place.
fn first_slots<M: Drop, A: Drop, R: Drop>(
    alloc: Global,
    machine: M,
    places: usize,
) -> Result<Vec<Held<M, A, R>>, AllocError>
    requires { places ≤ 8192 }
    ensures { IfOk result (λ s. (c : Core M A R) × (s.items ≡ Machine c ∷ replicate places Nothing) × IsReady (places + 1) c × (c.machine ≡ machine)) }
{
    let core = Core {
        machine,
        asks: Vec::with_capacity(alloc, places)?,
        answers: Vec::with_capacity(alloc, places)?,
        places: Vec::with_capacity(alloc, places)?,
    };
    let mut slots = Vec::with_capacity(alloc, places + 1)?;
    slots.push_reserved(Held::Machine(core));
    for filled in 0..places {
        slots.push_reserved(Held::Nothing);
    }
    Ok(slots)
}

// Takes the machine out of slot 0 of a table in which nobody steps any more.
fn take_machine<M: Drop, A: Drop, R: Drop>(mut closed: Closed<Held<M, A, R>, Global>) -> M
    requires full { IsFull closed.slots }
    requires machine { (c : Core M A R) × (get_elem? (slots_items closed.slots) 0 ≡ some (Machine c)) }
    ensures { (c : Core M A R) × (get_elem? (slots_items closed.slots) 0 ≡ some (Machine c)) × (c.machine ≡ result) }
{
    let first = closed.take(0);
    for i in 1..closed.slot_count() {
        drop(closed.take(i));
    }
    closed.free();
    match first {
        Held::Machine(
            Core {
                machine,
                asks: _,
                answers: _,
                places: _,
            },
        ) => machine,
        _ => unreachable!(),
    }
}

impl<M: Grouped> GroupGate<M> {
    /// A gate round the machine, with an empty history and this many places, and its first seat, which has no place. If
    /// memory runs out, the machine is dropped.
    pub fn new(
        alloc: Global,
        machine: M,
        places: usize,
    ) -> Result<(GroupGate<M>, GroupSeat<M>), OutOfMemory>
    where
        M: Drop,
        requires { places ≤ 8192 }
        ensures seat { IfOk result (λ g. IsSeatOf M.moves g.0 g.1) }
        ensures opening { IfOk result (λ g. opening_of g.0 ≡ machine) }
        ensures empty { IfOk result (λ g. seen_of g.1 ≡ []) }
        ensures places { IfOk result (λ g. g.0.places ≡ places) }
    {
        let opening = Snapshot::of(&machine);
        let hints = Hints::new(alloc, places)?;
        let words = vec![in alloc; 0u64; places + 1]?;
        let slots = first_slots(alloc, machine, places)?;
        match Table::new(alloc, words.as_slice(), slots, &opening) {
            Ok((table, seat)) => Ok((
                GroupGate {
                    table,
                    hints,
                    places,
                },
                seat,
            )),
            Err(Refused { slots: _ }) => Err(OutOfMemory),
        }
    }

    // Waits for the turn, and keeps it for good.
    fn keep_turn<R: Wait>(&self, rt: &R, seat: &mut GroupSeat<M>)
        requires { IsSeatOf M.moves self.now seat.old }
        ensures { (seat.new.table_id ≡ gate_id self.now) × (seat.new.me.0 ≡ holding Shut seat.old.me.0) }
    {
        let mut tries = 0u32;
        for _ in rt.forever() {
            let word = self.table.shared.peek(0);
            if word % 2 == 0 && word <= LAST {
                if let Some(core) = self.try_take(seat, word) {
                    self.shut(seat, word + 1, core);
                    return;
                }
            }
            self.rest(rt, 0, tries);
            tries = tries.saturating_add(1);
        }
        unreachable!()
    }

    /// Waits for the turn, and returns the machine's value. The gate is consumed, so no call can follow.
    pub fn close<R: Wait>(self, rt: &R, mut seat: GroupSeat<M>) -> M
    where
        M: Drop,
        requires { IsSeatOf M.moves self seat }
        ensures { (h : List (GroupEntry M.Ask M.Answer)) × IsPrefix (seen_of seat) h × HistoryLeadsTo M.moves (opening_of self) h result }
    {
        self.keep_turn(rt, &mut seat);
        let GroupGate {
            table,
            hints: _,
            places: _,
        } = self;
        take_machine(table.close_with(seat))
    }
}
