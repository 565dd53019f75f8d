// What is kept of an accepted command, and what a stamp is looked up to be.
use schedule_text::Next;

/// The answer that an accepted command was given.
#[derive(Clone, Copy)]
pub enum LaneAnswer {
    /// It is done; `existed` says whether there was what it removed.
    Done { existed: bool },
    /// What follows the firing of a reminder.
    NextIs { next: Next },
}

/// The number of an accepted command, and its answer.
#[derive(Clone, Copy)]
pub struct KeptNumber {
    /// The number, counted by the part of the member.
    pub number: u64,
    /// What was answered.
    pub answer: LaneAnswer,
}

/// How a stamp stands in its lane, if it isn't refused.
#[derive(Clone, Copy)]
pub enum StampLook {
    /// It wasn't accepted yet, and may be.
    Fresh,
    /// It was accepted, and this was its answer.
    Kept { answer: LaneAnswer },
}
