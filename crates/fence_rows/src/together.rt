// A fenced store as a machine that takes lists: its step.
ghost use Rattle.std.specs.Prelude.{◌≡◌, ◌≤◌, [], length, All, IsTrue, IsFalse, vec_capacity};
ghost use Rattle.fence_rows.specs.Events.{Takes};
ghost use Rattle.fence_rows.specs.Together.{are_commands, OneByOne, Shares};

use crate::event::{FencedEvent, FencedOutcome};
use crate::fence::Fence;
use crate::fenced::Fenced;
use disk_model::Disk;
use group_gate::Grouped;
use state_machine::Machine;

// Whether no compaction is among the events.
fn are_commands(events: &[FencedEvent]) -> bool
    ensures { result ≡ are_commands events.now }
{
    for event in events {
        if let FencedEvent::Compact { .. } = event {
            return false;
        }
    }
    true
}

impl<D: Disk> Fenced<D> {
    // Gives two or more commands to the store at once. False says that they go one by one; then nothing was done.
    fn share(&mut self, asks: &mut Vec<FencedEvent>, answers: &mut Vec<FencedOutcome>) -> bool
        requires asks { All Takes asks.old.items }
        requires room { (answers.old.items ≡ []) × (length asks.old.items ≤ vec_capacity answers.old) }
        ensures shares { IsTrue result → Shares self.old asks.old.items answers.new.items self.new }
        ensures emptied { IsTrue result → asks.new.items ≡ [] }
        ensures rests { IsFalse result → (self.new ≡ self.old) × (asks.new.items ≡ asks.old.items) × (answers.new.items ≡ []) }
        ensures room { (vec_capacity asks.new ≡ vec_capacity asks.old) × (vec_capacity answers.new ≡ vec_capacity answers.old) }
    {
        if asks.len() < 2 || !are_commands(asks.as_slice()) {
            return false;
        }
        self.store.commands::<Fence>(asks, answers)
    }

    // Makes a step by each event, one after another.
    fn step_each(&mut self, asks: &mut Vec<FencedEvent>, answers: &mut Vec<FencedOutcome>)
        requires asks { All Takes asks.old.items }
        requires room { (answers.old.items ≡ []) × (length asks.old.items ≤ vec_capacity answers.old) }
        ensures steps { OneByOne self.old asks.old.items answers.new.items self.new }
        ensures emptied { asks.new.items ≡ [] }
        ensures room { (vec_capacity asks.new ≡ vec_capacity asks.old) × (vec_capacity answers.new ≡ vec_capacity answers.old) }
    {
        asks.reverse();
        while let Some(event) = asks.pop() {
            answers.push_reserved(self.step(event));
        }
    }
}

impl<D: Disk> Grouped for Fenced<D> {
    ghost use Rattle.fence_rows.specs.Events.{Takes};
    ghost use Rattle.fence_rows.specs.Together.{AllowsAll};

    type Ask = FencedEvent;

    type Answer = FencedOutcome;

    ghost takes = { Takes };

    ghost moves = { AllowsAll };

    fn step_all(&mut self, asks: &mut Vec<FencedEvent>, answers: &mut Vec<FencedOutcome>) {
        if self.share(asks, answers) {
            return;
        }
        self.step_each(asks, answers);
    }
}
