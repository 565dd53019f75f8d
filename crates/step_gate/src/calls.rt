// Steps at a gate: one, or as many as it takes until the awaited reply comes.
ghost use Rattle.std.specs.Prelude.{◌≡◌, ◌^◌, List, length, IfOk, IfErr};
ghost use Rattle.std.specs.Fn.{FnReturnsAt};
ghost use Rattle.step_gate.specs.declared.view.Made.{Made};
ghost use Rattle.step_gate.specs.Gates.{seen_of, IsSeatOf, Adds, SeesLast};
ghost use Rattle.step_gate.specs.Waiting.{Tries, Succeeds};

use crate::gate::{Gate, Seat, Spent};
use crate::turn::LAST;
use state_machine::Machine;
use std::marker::Brand;
use std::snapshot::Snapshot;
use std::sync::Wait;

impl<M: Machine> Gate<M> {
    // Makes one step, but wakes none of the calls that its reply is news for.
    fn make_step<R: Wait>(
        &self,
        rt: &R,
        seat: &mut Seat<M>,
        event: M::Event,
    ) -> Result<M::Reply, Spent>
        requires seat { IsSeatOf M.moves self.now seat.old }
        requires event { M.takes event }
        ensures seat { IsSeatOf M.moves self.now seat.new }
        ensures entry { IfOk result (λ r. Adds event r seat.old seat.new) }
        ensures spent { IfErr result (λ e. (e.count ≡ 2 ^ 62) × SeesLast seat.old seat.new) }
    {
        let at = self.take(rt, seat);
        if at > LAST {
            self.give_up(seat, at);
            return Err(Spent { count: 1 << 62 });
        }
        let said = Snapshot::of(&event);
        let reply = seat.slot_mut(&self.table.shared, 0).step(event);
        self.release::<Brand>(seat, at, &said, &reply);
        Ok(reply)
    }

    /// The same as `call`, with a seat that stays in its place.
    pub fn call_in<R: Wait>(
        &self,
        rt: &R,
        seat: &mut Seat<M>,
        event: M::Event,
    ) -> Result<M::Reply, Spent>
        requires seat { IsSeatOf M.moves self.now seat.old }
        requires event { M.takes event }
        ensures seat { IsSeatOf M.moves self.now seat.new }
        ensures entry { IfOk result (λ r. Adds event r seat.old seat.new) }
        ensures spent { IfErr result (λ e. (e.count ≡ 2 ^ 62) × SeesLast seat.old seat.new) }
    {
        let reply = self.make_step(rt, seat, event)?;
        self.bells.ring(M::news(&reply));
        Ok(reply)
    }

    /// Waits until no other seat has the turn, and makes one step. What the seat has then seen ends with this step.
    /// `Spent` comes exactly if the history has 2^62 entries; then no step was made.
    pub fn call<R: Wait>(
        &self,
        rt: &R,
        mut seat: Seat<M>,
        event: M::Event,
    ) -> (Seat<M>, Result<M::Reply, Spent>)
        requires seat { IsSeatOf M.moves self.now seat }
        requires event { M.takes event }
        ensures seat { IsSeatOf M.moves self.now result.0 }
        ensures entry { IfOk result.1 (λ r. Adds event r seat result.0) }
        ensures spent { IfErr result.1 (λ e. (e.count ≡ 2 ^ 62) × SeesLast seat result.0) }
    {
        let reply = self.call_in(rt, &mut seat, event);
        (seat, reply)
    }

    /// Makes steps with events from `make` until `done` is true of a reply, and returns that reply. Between two steps
    /// it has given up the turn and sleeps until a reply to another call is news for it, or some milliseconds have
    /// passed. `Spent` comes if the history has 2^62 entries before that.
    pub fn wait_until<R: Wait, E: Fn() -> M::Event, F: Fn(&M::Reply) -> bool>(
        &self,
        rt: &R,
        mut seat: Seat<M>,
        make: E,
        done: F,
    ) -> (Seat<M>, Result<M::Reply, Spent>)
        requires seat { IsSeatOf M.moves self.now seat }
        requires calls { E.IsAlwaysCallable make × F.IsAlwaysCallable done }
        requires events { (e : M.Event) → E.post make e → M.takes e }
        ensures seat { IsSeatOf M.moves self.now result.0 }
        ensures entries { IfOk result.1 (λ r. Succeeds (E.post make) (FnReturnsAt F.Fn done) r seat result.0) }
        ensures spent { IfErr result.1 (λ e. (e.count ≡ 2 ^ 62) × (length (seen_of result.0) ≡ 2 ^ 62) × ((tries : List (Made M.Event M.Reply)) × Tries (E.post make) (FnReturnsAt F.Fn done) tries seat result.0)) }
    {
        let mut tries = 0u32;
        for _ in rt.forever() {
            let event = make();
            let heard = self.bells.listen(M::topic(&event));
            match self.make_step(rt, &mut seat, event) {
                Ok(reply) => {
                    if done(&reply) {
                        self.bells.leave(heard);
                        self.bells.ring(M::news(&reply));
                        return (seat, Ok(reply));
                    }
                    self.bells.rest(rt, &heard, tries);
                    self.bells.leave(heard);
                    tries = tries.saturating_add(1);
                }
                Err(spent) => {
                    self.bells.leave(heard);
                    return (seat, Err(spent));
                }
            }
        }
        unreachable!()
    }
}
