// A machine that is asked at a step gate: each event is one step.
use crate::asked::Askable;
use std::sync::Wait;
use step_gate::{Gate, Machine, Seat, Spent};

impl<M: Machine> Askable for Gate<M> {
    ghost use Rattle.step_gate.specs.Gates.{IsSeatOf};
    ghost use Rattle.frame_session.specs.AtStepGate.{StepReplies, StepsMade, steps_seen, no_steps_made, steps_made_on};

    type Event = M::Event;

    type Reply = M::Reply;

    type Seat = Seat<M>;

    ghost takes = { M.takes };

    ghost may_reply = { StepReplies M.moves };

    ghost seats = { IsSeatOf M.moves };

    ghost made = { StepsMade };

    ghost known = { steps_seen };

    fn ask<R: Wait>(&self, rt: &R, seat: &mut Seat<M>, event: M::Event) -> Result<M::Reply, Spent> {
        self.call_in(rt, seat, event)
    }

    ghost none_made = { no_steps_made };

    ghost made_on = { steps_made_on };
}
