// A book of timers as a machine: each event is the call with the same name.
use crate::book::{LAST_NUMBER, TimerBook};
use crate::error::TimerError;
use crate::event::{TimerEvent, TimerReply};
use state_machine::{Machine, News};

impl Machine for TimerBook {
    ghost use Rattle.timer_book.specs.Machine.{TimerMoves};

    type Event = TimerEvent;

    type Reply = TimerReply;

    ghost takes = { λ _. Unit {0} };

    ghost moves = { TimerMoves };

    fn step(&mut self, event: TimerEvent) -> TimerReply {
        match event {
            TimerEvent::Set { key, name, timer } => match self.set(&key, &name, timer) {
                Ok(number) => TimerReply::WasSet { number },
                Err(TimerError::Full) => TimerReply::Full,
                Err(TimerError::Spent) => TimerReply::Spent { count: LAST_NUMBER },
                Err(TimerError::OutOfMemory) => TimerReply::OutOfMemory,
            },
            TimerEvent::Delete { key, name } => {
                let existed = self.delete(&key, &name);
                TimerReply::Deleted { existed }
            }
            TimerEvent::Due { now } => match self.due(now) {
                Ok(timer) => TimerReply::DueIs { timer },
                Err(_) => TimerReply::OutOfMemory,
            },
            TimerEvent::Started { key, name, number } => {
                let there = self.started(&key, &name, number);
                TimerReply::Started { there }
            }
            TimerEvent::Finished {
                key,
                name,
                number,
                ended,
            } => {
                let next = self.finished(&key, &name, number, ended);
                TimerReply::Finished { next }
            }
            TimerEvent::DropActor { key } => {
                self.drop_actor(&key);
                TimerReply::Dropped
            }
        }
    }

    // After a timer was set or waits to fire again, some timer may be due earlier than before.
    fn news(reply: &TimerReply) -> News {
        match reply {
            TimerReply::WasSet { .. } | TimerReply::Finished { .. } => News::Everybody,
            _ => News::Nobody,
        }
    }
}
