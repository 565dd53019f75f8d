// A part as a machine: its step, and which waiting calls are woken by a reply.
use crate::part::Part;
use crate::receipt::PartReply;
use part_model::PartEvent;
use state_machine::{Machine, News};

impl Machine for Part {
    ghost use Rattle.part_model.specs.Rooms.{IsInRange};
    ghost use Rattle.part_model.specs.Machine.{PartAllows};

    type Event = PartEvent;

    type Reply = PartReply;

    ghost takes = { IsInRange };

    ghost moves = { PartAllows };

    fn step(&mut self, event: PartEvent) -> PartReply {
        Part::step(self, event)
    }

    // A waiting call polls with its number.
    fn topic(event: &PartEvent) -> u64 {
        match event {
            PartEvent::Poll { call } => *call,
            _ => 0,
        }
    }

    // An End, or the end of a deactivation, hands the turn to one call. An Unlock begins and moves many calls, and a
    // part that stops answers all of them. Nothing else ends the wait of a call.
    fn news(reply: &PartReply) -> News {
        match reply {
            PartReply::Ended { next: Some(next) } | PartReply::ClosedDone { next: Some(next) } => {
                News::Topic(*next)
            }
            PartReply::Opened { .. } | PartReply::StoppedNow { .. } => News::Everybody,
            _ => News::Nobody,
        }
    }
}
