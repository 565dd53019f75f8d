// A machine that is asked at a gate where callers share steps: each caller sits at a place of its own.
use crate::asked::Askable;
use group_gate::{GroupGate, GroupSeat, Grouped, Place};
use std::sync::Wait;
use step_gate::Spent;

/// A seat of such a gate, and the place that it has.
#[derive(Drop)]
pub struct PlacedSeat<M: Grouped> {
    pub seat: GroupSeat<M>,
    pub place: Place,
}

impl<M: Grouped> Askable for GroupGate<M> {
    ghost use Rattle.frame_session.specs.AtGroupGate.{GroupReplies, SitsThere, GroupMade, group_steps_seen, none_asked, asked_on};

    type Event = M::Ask;

    type Reply = M::Answer;

    type Seat = PlacedSeat<M>;

    ghost takes = { M.takes };

    ghost may_reply = { GroupReplies M.moves };

    ghost seats = { SitsThere M.moves };

    ghost made = { GroupMade };

    ghost known = { group_steps_seen };

    fn ask<R: Wait>(
        &self,
        rt: &R,
        seat: &mut PlacedSeat<M>,
        event: M::Ask,
    ) -> Result<M::Answer, Spent> {
        self.call_in(rt, &mut seat.seat, &seat.place, event)
    }

    ghost none_made = { none_asked };

    ghost made_on = { asked_on };
}
