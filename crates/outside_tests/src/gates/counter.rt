// A machine that counts.
ghost use Rattle.std.specs.Prelude.{◌≡◌, ◌≤◌, ◌+◌, ◌^◌};

use step_gate::{Machine, News};

/// What happens to a counter.
#[derive(Drop)]
pub enum Count {
    /// The counter counts one more.
    Up,
    /// A caller asks how far it has counted.
    Look,
}

/// A count. The counter answers each event with it.
#[derive(Drop)]
pub struct Counter {
    pub count: u64,
}

impl Machine for Counter {
    type Event = Count;

    type Reply = u64;

    ghost takes = { λ _. Unit {0} };

    ghost moves = { λ _ _ reply new. reply ≡ new.count };

    fn step(&mut self, event: Count) -> u64 {
        if let Count::Up = event {
            self.count = self.count.saturating_add(1);
        }
        self.count
    }

    fn news(_reply: &u64) -> News {
        News::Everybody
    }
}
