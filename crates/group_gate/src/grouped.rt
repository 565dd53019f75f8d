// What a machine is that takes lists.
ghost use Rattle.std.specs.Prelude.{◌≡◌, ◌≤◌, List, [], length, All, vec_capacity};

/// A value that steps by lists of asks, and answers each of them. What a step allows is stated by two members that only
/// contracts see.
pub trait Grouped {
    /// What a caller asks.
    type Ask: Drop;

    /// What it is answered.
    type Answer: Drop;

    /// Which asks it takes: those that meet the conditions of its calls. What a step needs of the value itself is an
    /// invariant of the machine's type.
    ghost takes: { Self.Ask → Type 0 };

    /// Which answers and following values its step allows, as a relation of the value before, the asks, the answers in
    /// the same order and the value after.
    ghost moves: { Self → List Self.Ask → List Self.Answer → Self → Type 0 };

    /// Makes one step by all the asks, without waiting. The answers come in the order of the asks.
    fn step_all(&mut self, asks: &mut Vec<Self::Ask>, answers: &mut Vec<Self::Answer>)
        requires asks { All takes asks.old.items }
        requires room { (answers.old.items ≡ []) × (length asks.old.items ≤ vec_capacity answers.old) }
        ensures moves { moves self.old asks.old.items answers.new.items self.new }
        ensures answered { length answers.new.items ≡ length asks.old.items }
        ensures emptied { asks.new.items ≡ [] }
        ensures room { (vec_capacity asks.new ≡ vec_capacity asks.old) × (vec_capacity answers.new ≡ vec_capacity answers.old) };
}
