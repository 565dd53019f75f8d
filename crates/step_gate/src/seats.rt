// Splitting a seat in two, and joining two seats. Neither waits.
ghost use Rattle.std.specs.Prelude.{◌≡◌, ◌≢◌, [], IfOk, IsOk};
ghost use mathlib.Core.List.{IsPrefix};
ghost use Rattle.step_gate.specs.History.{longer};
ghost use Rattle.step_gate.specs.Gates.{seen_of, mine_of, number_of, IsSeatOf, KeepsMine};

use crate::gate::{Gate, Seat};
use crate::plays::{Look, Meet, Tell};
use actor_names::OutOfMemory;
use state_machine::Machine;

impl<M: Machine> Gate<M> {
    /// The same as `split`, for a seat that stays in its place.
    pub fn split_in(&self, seat: &mut Seat<M>) -> Seat<M>
        requires { IsSeatOf M.moves self.now seat.old }
        ensures kept { IsSeatOf M.moves self.now seat.new × KeepsMine seat.old seat.new × (seen_of seat.new ≡ seen_of seat.old) }
        ensures given { IsSeatOf M.moves self.now result × (seen_of result ≡ seen_of seat.old) × (mine_of result ≡ []) × (number_of result ≢ number_of seat.old) }
    {
        let mut other = self.table.shared.split_seat::<Tell>(seat);
        self.table.shared.load::<Look>(&mut other, 0);
        other
    }

    /// Gives a second seat, which has seen as much as the first and has made no entry. It takes no memory, so it is
    /// never refused.
    pub fn split(&self, mut seat: Seat<M>) -> (Seat<M>, Result<Seat<M>, OutOfMemory>)
        requires { IsSeatOf M.moves self.now seat }
        ensures kept { IsSeatOf M.moves self.now result.0 × KeepsMine seat result.0 × (seen_of result.0 ≡ seen_of seat) }
        ensures never_refused { IsOk result.1 }
        ensures given { IfOk result.1 (λ s. IsSeatOf M.moves self.now s × (seen_of s ≡ seen_of seat) × (mine_of s ≡ []) × (number_of s ≢ number_of seat)) }
    {
        let other = self.split_in(&mut seat);
        (seat, Ok(other))
    }

    /// The same as `join`, into a seat that stays in its place.
    pub fn join_in(&self, kept: &mut Seat<M>, given: Seat<M>)
        requires kept { IsSeatOf M.moves self.now kept.old }
        requires given { IsSeatOf M.moves self.now given }
        ensures seat { IsSeatOf M.moves self.now kept.new × KeepsMine kept.old kept.new }
        ensures seen { seen_of kept.new ≡ longer (seen_of kept.old) (seen_of given) }
        ensures given { IsPrefix (seen_of given) (seen_of kept.new) }
        ensures apart { number_of given ≢ number_of kept.old }
    {
        self.table.shared.join_seat::<Meet>(kept, given);
        self.table.shared.load::<Look>(kept, 0);
    }

    /// Ends the given seat. The kept seat has then seen all that either had seen; its own entries stay as they were.
    pub fn join(&self, mut kept: Seat<M>, given: Seat<M>) -> Seat<M>
        requires kept { IsSeatOf M.moves self.now kept }
        requires given { IsSeatOf M.moves self.now given }
        ensures seat { IsSeatOf M.moves self.now result × KeepsMine kept result }
        ensures seen { seen_of result ≡ longer (seen_of kept) (seen_of given) }
        ensures given { IsPrefix (seen_of given) (seen_of result) }
        ensures apart { number_of given ≢ number_of kept }
    {
        self.join_in(&mut kept, given);
        kept
    }
}
