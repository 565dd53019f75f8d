// What a seat does at its place.
ghost use Rattle.std.specs.Prelude.{◌≡◌, ◌<◌, ◌≤◌, IfSome, IfNone, IsTrue, IsFalse};
ghost use mathlib.Core.List.{IsPrefix};
ghost use Rattle.group_gate.specs.Gates.{seen_of, mine_of, IsSeatOf, SitsAt, WaitsAt, AnsweredIn};

use crate::gate::{GroupGate, GroupSeat, Place};
use crate::grouped::Grouped;
use crate::plays::{Fetch, Post, Rise, Sit, Withdraw};
use crate::view::Held;
use std::snapshot::Snapshot;

/// The word of a free place.
const FREE: u64 = 0;

/// The word of a place that a seat has, where nothing is asked.
const OWNED: u64 = 1;

/// The word of a place whose ask nobody has collected.
pub(crate) const ASKED: u64 = 2;

/// The word of a place whose ask was collected.
pub(crate) const TAKEN: u64 = 3;

/// The word of a place whose answer is there.
pub(crate) const ANSWERED: u64 = 4;

impl<M: Grouped> GroupGate<M> {
    // Takes the place if it is free.
    fn try_sit(&self, seat: &mut GroupSeat<M>, place: usize) -> bool
        requires seat { IsSeatOf M.moves self.now seat.old }
        requires place { (0 < place) × (place ≤ self.now.places) }
        ensures sits { IsTrue result → SitsAt M.moves self.now place seat.new × IsPrefix (seen_of seat.old) (seen_of seat.new) }
        ensures stands { IsFalse result → (seat.new.table_id ≡ seat.old.table_id) × (seat.new.me ≡ seat.old.me) }
    {
        if self.table.shared.peek(place) != FREE {
            return false;
        }
        let found = self
            .table
            .shared
            .compare_exchange::<Sit>(seat, place, FREE, OWNED);
        found == FREE
    }

    /// Takes a free place for the seat. `None` comes if it found none.
    pub fn sit(&self, seat: &mut GroupSeat<M>) -> Option<Place>
        requires { IsSeatOf M.moves self.now seat.old }
        ensures sits { IfSome result (λ p. SitsAt M.moves self.now p.at seat.new) }
        ensures stands { IfNone result (IsSeatOf M.moves self.now seat.new) }
        ensures seen { IsPrefix (seen_of seat.old) (seen_of seat.new) }
    {
        for at in 1..self.places + 1 {
            if self.try_sit(seat, at) {
                return Some(Place { at });
            }
        }
        None
    }

    /// Gives the place back. The seat has seen as much as before.
    pub fn rise(&self, seat: &mut GroupSeat<M>, place: Place)
        requires { SitsAt M.moves self.now place.at seat.old }
        ensures stands { IsSeatOf M.moves self.now seat.new }
        ensures seen { seen_of seat.new ≡ seen_of seat.old }
    {
        self.table.shared.store::<Rise>(seat, place.at, FREE);
    }

    // Puts the ask at the place. From then on whoever has the turn may take it.
    pub(crate) fn post(&self, seat: &mut GroupSeat<M>, place: usize, ask: M::Ask)
        requires seat { SitsAt M.moves self.now place seat.old }
        requires ask { M.takes ask }
        ensures waits { WaitsAt M.moves self.now place ask seat.new }
        ensures lists { (mine_of seat.new ≡ mine_of seat.old) × (seen_of seat.new ≡ seen_of seat.old) }
    {
        match self.table.shared.exchange(seat, place, Held::Ask(ask)) {
            Held::Nothing => {}
            _ => unreachable!(),
        }
        self.table.shared.store::<Post>(seat, place, ASKED);
        self.hints.note(place);
    }

    // Takes the answer, if it is there.
    pub(crate) fn fetch(
        &self,
        seat: &mut GroupSeat<M>,
        place: usize,
        _ask: &Snapshot<M::Ask>,
    ) -> Option<M::Answer>
        requires { WaitsAt M.moves self.now place _ask.now.value seat.old }
        ensures seat { IfSome result (λ r. SitsAt M.moves self.now place seat.new) }
        ensures fetched { IfSome result (λ r. AnsweredIn place _ask.now.value r seat.old seat.new) }
        ensures missed { IfNone result ((seat.new.table_id ≡ seat.old.table_id) × (seat.new.me ≡ seat.old.me)) }
    {
        if self.table.shared.peek(place) != ANSWERED {
            return None;
        }
        let found = self
            .table
            .shared
            .compare_exchange::<Fetch>(seat, place, ANSWERED, OWNED);
        if found != ANSWERED {
            return None;
        }
        match self.table.shared.exchange(seat, place, Held::Nothing) {
            Held::Answer(answer) => Some(answer),
            _ => unreachable!(),
        }
    }

    // Takes the ask back, if nobody has collected it.
    pub(crate) fn withdraw(
        &self,
        seat: &mut GroupSeat<M>,
        place: usize,
        _ask: &Snapshot<M::Ask>,
    ) -> Option<M::Ask>
        requires { WaitsAt M.moves self.now place _ask.now.value seat.old }
        ensures seat { IfSome result (λ a. SitsAt M.moves self.now place seat.new) }
        ensures back { IfSome result (λ a. (a ≡ _ask.now.value) × (mine_of seat.new ≡ mine_of seat.old) × (seen_of seat.new ≡ seen_of seat.old)) }
        ensures missed { IfNone result ((seat.new.table_id ≡ seat.old.table_id) × (seat.new.me ≡ seat.old.me)) }
    {
        let found = self
            .table
            .shared
            .compare_exchange::<Withdraw>(seat, place, ASKED, OWNED);
        if found != ASKED {
            return None;
        }
        match self.table.shared.exchange(seat, place, Held::Nothing) {
            Held::Ask(ask) => Some(ask),
            _ => unreachable!(),
        }
    }
}
