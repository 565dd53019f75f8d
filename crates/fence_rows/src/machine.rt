// A fenced store as a machine: its step.
use crate::event::{FencedEvent, FencedOutcome};
use crate::fenced::Fenced;
use disk_model::Disk;
use state_machine::Machine;

impl<D: Disk> Machine for Fenced<D> {
    ghost use Rattle.fence_rows.specs.Events.{Takes, Allows};

    type Event = FencedEvent;

    type Reply = FencedOutcome;

    ghost takes = { Takes };

    ghost moves = { Allows };

    fn step(&mut self, event: FencedEvent) -> FencedOutcome {
        match event {
            FencedEvent::Command { command, now } => FencedOutcome::Answer {
                answer: self.command(command, now),
            },
            FencedEvent::Compact { least, now } => FencedOutcome::CompactIs {
                end: self.compact(least, now),
            },
        }
    }
}
