// A call: it posts its ask, and leads or waits until the answer is there.
ghost use Rattle.std.specs.Prelude.{◌≡◌, ◌^◌, length, IfOk, IfErr, IsTrue, IsFalse};
ghost use Rattle.group_gate.specs.Gates.{seen_of, SitsAt, WaitsAt, KeepsMine, AnsweredIn, SeesLast};

use crate::gate::{GroupGate, GroupSeat, Place};
use crate::grouped::Grouped;
use crate::plays::Look;
use crate::turn::LAST;
use std::snapshot::Snapshot;
use std::sync::Wait;
use step_gate::Spent;

impl<M: Grouped> GroupGate<M> {
    // Takes the turn if it is free, and leads. False says that it wasn't free when the word was seen, a moment ago.
    fn try_lead(
        &self,
        seat: &mut GroupSeat<M>,
        place: usize,
        word: u64,
        _ask: &Snapshot<M::Ask>,
    ) -> bool
        requires waits { WaitsAt M.moves self.now place _ask.now.value seat.old }
        ensures waits { WaitsAt M.moves self.now place _ask.now.value seat.new }
        ensures lists { KeepsMine seat.old seat.new }
    {
        if word % 2 == 1 || word >= LAST {
            return false;
        }
        let Some(core) = self.try_take(seat, word) else {
            return true;
        };
        self.hints.note(place);
        self.lead(seat, word + 1, core);
        true
    }

    // Looks at the whole history. True says that it has no room for more.
    fn sees_last(&self, seat: &mut GroupSeat<M>, place: usize) -> bool
        requires { SitsAt M.moves self.now place seat.old }
        ensures seat { SitsAt M.moves self.now place seat.new × KeepsMine seat.old seat.new }
        ensures last { IsTrue result → length (seen_of seat.new) ≡ 2 ^ 62 }
    {
        self.table.shared.load::<Look>(seat, 0) >= LAST
    }

    // If the history has no room, and nobody has collected the ask, the ask is taken back.
    fn try_leave(
        &self,
        seat: &mut GroupSeat<M>,
        place: usize,
        word: u64,
        _ask: &Snapshot<M::Ask>,
    ) -> bool
        requires ask { M.takes _ask.now.value }
        requires waits { WaitsAt M.moves self.now place _ask.now.value seat.old }
        ensures lists { KeepsMine seat.old seat.new }
        ensures left { IsTrue result → SitsAt M.moves self.now place seat.new × SeesLast seat.old seat.new }
        ensures waits { IsFalse result → WaitsAt M.moves self.now place _ask.now.value seat.new }
    {
        if word < LAST {
            return false;
        }
        match self.withdraw(seat, place, _ask) {
            None => false,
            Some(ask) => {
                let last = self.sees_last(seat, place);
                if !last {
                    self.post(seat, place, ask);
                }
                last
            }
        }
    }

    /// Asks at the place, and waits for the answer: whoever has the turn makes one step by all that is asked. The answer
    /// is the ask's in one entry, which was added to the history during this call. `Spent` comes exactly if the history
    /// has 2^62 entries; then nothing was asked.
    pub fn call_in<R: Wait>(
        &self,
        rt: &R,
        seat: &mut GroupSeat<M>,
        place: &Place,
        ask: M::Ask,
    ) -> Result<M::Answer, Spent>
        requires seat { SitsAt M.moves self.now place.now.at seat.old }
        requires ask { M.takes ask }
        ensures seat { SitsAt M.moves self.now place.now.at seat.new }
        ensures answer { IfOk result (λ r. AnsweredIn place.now.at ask r seat.old seat.new) }
        ensures spent { IfErr result (λ e. (e.count ≡ 2 ^ 62) × SeesLast seat.old seat.new) }
    {
        let said = Snapshot::of(&ask);
        self.post(seat, place.at, ask);
        let mut tries = 0u32;
        for _ in rt.forever() {
            if let Some(answer) = self.fetch(seat, place.at, &said) {
                return Ok(answer);
            }
            let word = self.table.shared.peek(0);
            if self.try_leave(seat, place.at, word, &said) {
                return Err(Spent { count: 1 << 62 });
            }
            if !self.try_lead(seat, place.at, word, &said) {
                self.rest(rt, place.at, tries);
                tries = tries.saturating_add(1);
            }
        }
        unreachable!()
    }
}
