// Splitting a seat in two, and joining two seats. Neither waits.
ghost use Rattle.std.specs.Prelude.{◌≡◌};
ghost use mathlib.Core.List.{IsPrefix};
ghost use Rattle.group_gate.specs.Gates.{seen_of, IsSeatOf, KeepsMine};

use crate::gate::{GroupGate, GroupSeat};
use crate::grouped::Grouped;
use crate::plays::{Look, Meet, Tell};

impl<M: Grouped> GroupGate<M> {
    /// Gives a second seat, which has seen as much as the first and has no place. It takes no memory.
    pub fn split_in(&self, seat: &mut GroupSeat<M>) -> GroupSeat<M>
        requires { IsSeatOf M.moves self.now seat.old }
        ensures kept { IsSeatOf M.moves self.now seat.new × (seen_of seat.new ≡ seen_of seat.old) }
        ensures given { IsSeatOf M.moves self.now result × (seen_of result ≡ seen_of seat.old) }
    {
        self.table.shared.split_seat::<Tell>(seat)
    }

    /// Ends the given seat. The kept seat has then seen all that either had seen.
    pub fn join_in(&self, kept: &mut GroupSeat<M>, given: GroupSeat<M>)
        requires kept { IsSeatOf M.moves self.now kept.old }
        requires given { IsSeatOf M.moves self.now given }
        ensures seat { IsSeatOf M.moves self.now kept.new × KeepsMine kept.old kept.new }
        ensures given { IsPrefix (seen_of given) (seen_of kept.new) }
    {
        self.table.shared.join_seat::<Meet>(kept, given);
        self.table.shared.load::<Look>(kept, 0);
    }
}
