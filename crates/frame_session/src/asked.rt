// Where a machine is asked.
ghost use Rattle.std.specs.Prelude.{◌≡◌, ◌<◌, ◌≤◌, ◌^◌, ℕ, List, [], ◌∷◌, ◌++◌, IfOk, IfErr};
ghost use Rattle.frame_session.specs.Exchanges.{Exchange, exchange};

use std::sync::Wait;
use step_gate::Spent;

/// Where a machine is asked, one event at a time, by each caller at a seat of its own. What was asked there is stated by
/// members that only contracts see.
pub trait Askable {
    /// What is asked.
    type Event: Drop;

    /// What is replied.
    type Reply: Drop;

    /// What one caller knows of the machine's history, and its permission to ask.
    type Seat;

    /// Which events it takes: those that meet the conditions of the machine's calls.
    ghost takes: { Self.Event → Type 0 };

    /// Which replies it may give to an event.
    ghost may_reply: { Self.Event → Self.Reply → Type 0 };

    /// Which seats are seats of it, at which nothing is under way.
    ghost seats: { Self → Self.Seat → Type 0 };

    /// What was asked and replied at a seat, between two values of it: just these, in this order.
    ghost made: { List (Exchange Self.Event Self.Reply) → Self.Seat → Self.Seat → Type 0 };

    /// How many steps of the machine's history a seat knows.
    ghost known: { Self.Seat → ℕ };

    /// Asks at the seat, and waits for the reply. `Spent` comes exactly if the history has 2^62 steps; then nothing was
    /// asked.
    fn ask<R: Wait>(
        &self,
        rt: &R,
        seat: &mut Self::Seat,
        event: Self::Event,
    ) -> Result<Self::Reply, Spent>
        requires seat { seats self.now seat.old }
        requires event { takes event }
        ensures seat { seats self.now seat.new }
        ensures reply { IfOk result (λ r. may_reply event r) }
        ensures one { IfOk result (λ r. made (exchange event r ∷ []) seat.old seat.new) }
        ensures longer { IfOk result (λ r. (known seat.old < known seat.new) × (known seat.new ≤ 2 ^ 62)) }
        ensures spent { IfErr result (λ e. (e.count ≡ 2 ^ 62) × (known seat.new ≡ 2 ^ 62) × made [] seat.old seat.new) };

    /// Between a seat and itself nothing was asked.
    ghost none_made: { (s : Self.Seat) → made [] s s };

    /// What was asked in two calls is what the first was asked, and then the second.
    ghost made_on: { (xs ys : List (Exchange Self.Event Self.Reply)) (s0 s1 s2 : Self.Seat) → made xs s0 s1 → made ys s1 s2 → made (xs ++ ys) s0 s2 };
}
