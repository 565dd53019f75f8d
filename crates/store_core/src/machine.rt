// The store as a machine: its step.
use crate::events::{StoreEvent, StoreOutcome};
use crate::store::Store;
use disk_model::Disk;
use state_machine::Machine;

impl<D: Disk> Machine for Store<D> {
    ghost use Rattle.store_core.specs.Events.{Takes, Allows};

    type Event = StoreEvent;

    type Reply = StoreOutcome;

    ghost takes = { Takes };

    ghost moves = { Allows };

    fn step(&mut self, event: StoreEvent) -> StoreOutcome {
        match event {
            StoreEvent::Command { command, now } => StoreOutcome::Answer {
                answer: self.command(command, now),
            },
            StoreEvent::Compact { least, now } => StoreOutcome::CompactIs {
                end: self.compact(least, now),
            },
        }
    }
}
