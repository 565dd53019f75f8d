// A machine that adds what it is asked to, list by list.
ghost use Rattle.std.specs.Prelude.{◌≡◌, ◌≤◌, [], length, vec_capacity};

use group_gate::Grouped;

/// A sum. The adder answers each number with the sum behind it.
#[derive(Drop)]
pub struct Adder {
    pub sum: u64,
}

impl Grouped for Adder {
    type Ask = u64;

    type Answer = u64;

    ghost takes = { λ _. Unit {0} };

    ghost moves = { λ _ _ _ _. Unit {0} };

    fn step_all(&mut self, asks: &mut Vec<u64>, answers: &mut Vec<u64>) {
        for number in asks.as_slice() {
            self.sum = self.sum.saturating_add(*number);
            answers.push_reserved(self.sum);
        }
        asks.clear();
    }
}
