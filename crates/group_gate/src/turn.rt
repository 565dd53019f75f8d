// The turn: taking it, and the ways to give it up.
ghost use Rattle.std.specs.Prelude.{◌≡◌, ◌+◌, ◌%◌, ◌^◌, ◌<◌, ◌≤◌, true, [], ◌∷◌, IfSome, IfNone};
ghost use Rattle.group_gate.specs.declared.view.Held.TheVariants.{Nothing};
ghost use Rattle.group_gate.specs.declared.view.Turn.TheVariants.{Idle, Shut};
ghost use Rattle.group_gate.specs.Kept.{IsReady, holding, released};
ghost use Rattle.group_gate.specs.Turns.{Gathers, IsHolder};
ghost use Rattle.group_gate.specs.Gates.{gate_id};

use crate::gate::{GroupGate, GroupSeat};
use crate::grouped::Grouped;
use crate::plays::{Close, GiveUp, Take};
use crate::view::{Core, Held};

/// The word after 2^62 entries.
pub(crate) const LAST: u64 = 1 << 63;

impl<M: Grouped> GroupGate<M> {
    // Takes the turn if the word is this one, and the machine out of its slot.
    pub(crate) fn try_take(
        &self,
        seat: &mut GroupSeat<M>,
        word: u64,
    ) -> Option<Core<M, M::Ask, M::Answer>>
        requires seat { (seat.old.table_id ≡ gate_id self.now) × (seat.old.me.0.live ≡ true) × (seat.old.me.1 ≡ []) }
        requires word { (word % 2 ≡ 0) × (word ≤ 2 ^ 63) }
        ensures taken { IfSome result (λ c. Gathers M.takes self.now (word + 1) seat.new c × (released seat.new.me.0 ≡ released seat.old.me.0) × IsReady (self.now.places + 1) c) }
        ensures missed { IfNone result ((seat.new.table_id ≡ seat.old.table_id) × (seat.new.me ≡ seat.old.me)) }
    {
        let found = self
            .table
            .shared
            .compare_exchange::<Take>(seat, 0, word, word + 1);
        if found != word {
            return None;
        }
        match self.table.shared.exchange(seat, 0, Held::Nothing) {
            Held::Machine(core) => Some(core),
            _ => unreachable!(),
        }
    }

    // Puts the machine back into its slot, and gives up the turn.
    pub(crate) fn give_up(&self, seat: &mut GroupSeat<M>, at: u64, core: Core<M, M::Ask, M::Answer>)
        requires seat { (seat.old.table_id ≡ gate_id self.now) × (seat.old.me.0.live ≡ true) × (seat.old.me.1 ≡ (0, Nothing) ∷ []) }
        requires turn { IsHolder at core.machine seat.old.me.0.turn }
        requires at { at % 2 ≡ 1 }
        requires ready { IsReady (self.now.places + 1) core }
        ensures seat { (seat.new.table_id ≡ seat.old.table_id) × (seat.new.me.1 ≡ []) × (seat.new.me.0 ≡ holding Idle seat.old.me.0) }
    {
        match self.table.shared.exchange(seat, 0, Held::Machine(core)) {
            Held::Nothing => {}
            _ => unreachable!(),
        }
        self.table.shared.store::<GiveUp>(seat, 0, at - 1);
        self.hand_on();
    }

    // Puts the machine back into its slot, and keeps the turn for good.
    pub(crate) fn shut(&self, seat: &mut GroupSeat<M>, at: u64, core: Core<M, M::Ask, M::Answer>)
        requires seat { (seat.old.table_id ≡ gate_id self.now) × (seat.old.me.0.live ≡ true) × (seat.old.me.1 ≡ (0, Nothing) ∷ []) }
        requires turn { IsHolder at core.machine seat.old.me.0.turn }
        requires at { at % 2 ≡ 1 }
        requires ready { IsReady (self.now.places + 1) core }
        ensures seat { (seat.new.table_id ≡ seat.old.table_id) × (seat.new.me.0 ≡ holding Shut seat.old.me.0) }
    {
        match self.table.shared.exchange(seat, 0, Held::Machine(core)) {
            Held::Nothing => {}
            _ => unreachable!(),
        }
        self.table.shared.store::<Close>(seat, 0, at);
    }
}
