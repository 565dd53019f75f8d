// A machine that counts its steps.
use step_gate::{Machine, News};

/// The event of one more step.
#[derive(Drop)]
pub struct Up;

/// How many steps there were.
#[derive(Drop)]
pub struct Counter {
    pub count: u64,
}

impl Machine for Counter {
    ghost use Rattle.bench_steps.specs.Counting.{CounterMoves};

    type Event = Up;

    type Reply = u64;

    ghost takes = { λ _. Unit {0} };

    ghost moves = { CounterMoves };

    fn step(&mut self, _event: Up) -> u64 {
        self.count = self.count.saturating_add(1);
        self.count
    }

    fn news(_reply: &u64) -> News {
        News::Nobody
    }
}
