// What the seat does that has the turn: it collects what is asked, makes one step, and puts the answers at their places.
ghost use Rattle.std.specs.Prelude.{◌≡◌, ℕ, ◌+◌, ◌%◌, ◌^◌, ◌<◌, ◌≤◌, true, List, [], ◌∷◌, ◌++◌, length, Some};
ghost use Rattle.atomic_table.specs.Table.{rest};
ghost use Rattle.group_gate.specs.declared.view.Asked.{Asked};
ghost use Rattle.group_gate.specs.declared.view.Done.{Done};
ghost use Rattle.group_gate.specs.declared.view.Held.TheVariants.{Nothing};
ghost use Rattle.group_gate.specs.declared.view.Turn.TheVariants.{Leads, Owes};
ghost use Rattle.group_gate.specs.History.{asks_in};
ghost use Rattle.group_gate.specs.Kept.{holding, released, dones};
ghost use Rattle.group_gate.specs.Turns.{Gathers, Settles, OwesLast};
ghost use Rattle.group_gate.specs.Gates.{gate_id};

use crate::desk::{ANSWERED, ASKED, TAKEN};
use crate::gate::{GroupGate, GroupSeat};
use crate::grouped::Grouped;
use crate::hints::GROUP;
use crate::plays::{Collect, Put, Record, Said};
use crate::view::{Core, Held};
use std::marker::Brand;

impl<M: Grouped> GroupGate<M> {
    // Takes what is asked at the place, if something is and there is room.
    fn collect(
        &self,
        seat: &mut GroupSeat<M>,
        at: u64,
        place: usize,
        core: &mut Core<M, M::Ask, M::Answer>,
    )
        requires place { (0 < place) × (place ≤ self.now.places) }
        requires gathers { Gathers M.takes self.now at seat.old core.old }
        ensures gathers { Gathers M.takes self.now at seat.new core.new }
        ensures view { released seat.new.me.0 ≡ released seat.old.me.0 }
    {
        if core.asks.len() >= self.places || core.places.len() >= self.places {
            return;
        }
        let found = self
            .table
            .shared
            .compare_exchange::<Collect>(seat, place, ASKED, TAKEN);
        if found == ASKED {
            match self.table.shared.exchange(seat, place, Held::Nothing) {
                Held::Ask(ask) => {
                    core.asks.push_reserved(ask);
                    core.places.push_reserved(place);
                }
                _ => unreachable!(),
            }
        }
    }

    // The same at each place of a group that has its bit set.
    fn collect_group(
        &self,
        seat: &mut GroupSeat<M>,
        at: u64,
        group: usize,
        core: &mut Core<M, M::Ask, M::Answer>,
    )
        requires group { group ≤ 128 }
        requires gathers { Gathers M.takes self.now at seat.old core.old }
        ensures gathers { Gathers M.takes self.now at seat.new core.new }
        ensures view { released seat.new.me.0 ≡ released seat.old.me.0 }
    {
        let bits = self.hints.take(group);
        if bits == 0 {
            return;
        }
        for bit in 0..GROUP {
            let place = group * GROUP + bit;
            if (bits >> bit as u32) % 2 == 1 && 0 < place && place <= self.places {
                self.collect(seat, at, place, core);
            }
        }
    }

    // The same at all places, in their order.
    fn collect_all(&self, seat: &mut GroupSeat<M>, at: u64, core: &mut Core<M, M::Ask, M::Answer>)
        requires gathers { Gathers M.takes self.now at seat.old core.old }
        ensures gathers { Gathers M.takes self.now at seat.new core.new }
        ensures view { released seat.new.me.0 ≡ released seat.old.me.0 }
    {
        for group in 0..self.places / GROUP + 1 {
            self.collect_group(seat, at, group, core);
        }
    }

    // Adds the step to the history, and keeps the turn.
    fn record<W: Said<M, M::Answer>>(
        &self,
        seat: &mut GroupSeat<M>,
        at: u64,
        _answers: &Vec<M::Answer>,
        _machine: &M,
    )
        requires said { W.said ≡ Some (_answers.now.items, _machine.now) }
        requires seat { (seat.old.table_id ≡ gate_id self.now) × (seat.old.me.0.live ≡ true) }
        requires turn { (x : M) × (cs : List (Asked M.Ask)) × (seat.old.me.0.turn ≡ Leads at x cs) × M.moves x (asks_in cs) _answers.now.items _machine.now × (length _answers.now.items ≡ length cs) }
        requires at { (at % 2 ≡ 1) × (at < 2 ^ 63) }
        ensures seat { (seat.new.table_id ≡ seat.old.table_id) × (seat.new.me.1 ≡ seat.old.me.1) }
        ensures owed { (n : ℕ) × ((x : M) (cs : List (Asked M.Ask)) → seat.old.me.0.turn ≡ Leads at x cs → seat.new.me.0 ≡ holding (Owes (at + 2) _machine.now (dones n 0 cs _answers.now.items)) seat.old.me.0) }
    {
        self.table.shared.store::<Record<W>>(seat, 0, at + 2);
    }

    // Makes one step by what was collected.
    fn make_step(&self, seat: &mut GroupSeat<M>, at: u64, core: &mut Core<M, M::Ask, M::Answer>)
        requires gathers { Gathers M.takes self.now at seat.old core.old }
        requires at { (at % 2 ≡ 1) × (at < 2 ^ 63) }
        ensures settles { Settles self.now (at + 2) seat.new core.new }
        ensures view { released seat.new.me.0 ≡ released seat.old.me.0 }
    {
        core.machine.step_all(&mut core.asks, &mut core.answers);
        self.record::<Brand>(seat, at, &core.answers, &core.machine);
    }

    // Puts the answer at the last place that is owed one.
    fn put(&self, seat: &mut GroupSeat<M>, place: usize, answer: M::Answer)
        requires place { (0 < place) × (place ≤ self.now.places) }
        requires seat { (seat.old.table_id ≡ gate_id self.now) × (seat.old.me.0.live ≡ true) × (seat.old.me.1 ≡ (place, Nothing) ∷ rest seat.old.me.1) }
        requires owed { OwesLast place answer seat.old.me.0.turn }
        ensures seat { (seat.new.table_id ≡ seat.old.table_id) × (seat.new.me.1 ≡ rest seat.old.me.1) }
        ensures paid { (at : ℕ) (y : M) (ds : List (Done M.Ask M.Answer)) (d : Done M.Ask M.Answer) → seat.old.me.0.turn ≡ Owes at y (ds ++ d ∷ []) → seat.new.me.0 ≡ holding (Owes at y ds) seat.old.me.0 }
    {
        match self
            .table
            .shared
            .exchange(seat, place, Held::Answer(answer))
        {
            Held::Nothing => {}
            _ => unreachable!(),
        }
        self.table.shared.store::<Put>(seat, place, ANSWERED);
    }

    // Puts all answers at their places, the last one first.
    fn put_all(&self, seat: &mut GroupSeat<M>, at: u64, core: &mut Core<M, M::Ask, M::Answer>)
        requires settles { Settles self.now at seat.old core.old }
        ensures settles { Settles self.now at seat.new core.new }
        ensures view { released seat.new.me.0 ≡ released seat.old.me.0 }
        ensures done { core.new.places.items ≡ [] }
    {
        while let Some(place) = core.places.pop() {
            match core.answers.pop() {
                Some(answer) => self.put(seat, place, answer),
                None => unreachable!(),
            }
        }
    }

    // Makes one step by all that is asked, if anything is, and gives up the turn.
    pub(crate) fn lead(
        &self,
        seat: &mut GroupSeat<M>,
        at: u64,
        mut core: Core<M, M::Ask, M::Answer>,
    )
        requires gathers { Gathers M.takes self.now at seat.old core }
        requires at { (at % 2 ≡ 1) × (at < 2 ^ 63) }
        ensures seat { (seat.new.table_id ≡ seat.old.table_id) × (seat.new.me.1 ≡ []) × (seat.new.me.0 ≡ released seat.old.me.0) }
    {
        self.collect_all(seat, at, &mut core);
        if core.places.is_empty() {
            self.give_up(seat, at, core);
        } else {
            self.make_step(seat, at, &mut core);
            self.put_all(seat, at + 2, &mut core);
            self.give_up(seat, at + 2, core);
        }
    }
}
