// What a machine is, and whom its replies concern.

/// Which waiting calls a reply may be news for. A gate wakes these calls. A call that isn't woken polls again by itself
/// when the gate's pause is over.
#[derive(Clone, Copy)]
pub enum News {
    /// No waiting call is ready now that wasn't ready before.
    Nobody,
    /// The calls that poll with events of this topic.
    Topic(u64),
    /// Any waiting call.
    Everybody,
}

/// A value that steps by events. What its step allows is stated by two members that only contracts see.
pub trait Machine {
    /// What happens to the machine.
    type Event: Drop;

    /// What it answers.
    type Reply: Drop;

    /// Which events it takes: those that meet the conditions of its calls. What a step needs of the value itself is an
    /// invariant of the machine's type.
    ghost takes: { Self.Event → Type 0 };

    /// Which replies and following values its step allows, as a relation of the value before, the event, the reply and
    /// the value after.
    ghost moves: { Self → Self.Event → Self.Reply → Self → Type 0 };

    /// Makes one step, without waiting.
    fn step(&mut self, event: Self::Event) -> Self::Reply
        requires { takes event }
        ensures { moves self.old event result self.new };

    /// What a call that polls with this event waits for. Topics only save wake-ups: no contract speaks of them.
    fn topic(_event: &Self::Event) -> u64 {
        0
    }

    /// Which waiting calls the reply may be news for.
    fn news(_reply: &Self::Reply) -> News {
        News::Everybody
    }
}
