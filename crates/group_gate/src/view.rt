// What a slot holds, and what a seat knows. But for `Core` and `Held` no value of these types is ever made: they are
// only for contracts.
use std::collections::LinkedList;

/// The machine, and lists with room for one ask of each place.
#[derive(Drop)]
pub struct Core<M, A, R> {
    pub(crate) machine: M,
    /// The asks that were collected.
    pub(crate) asks: Vec<A>,
    /// Their answers.
    pub(crate) answers: Vec<R>,
    /// The places at which they stood.
    pub(crate) places: Vec<usize>,
}

/// What a slot of the table holds.
#[derive(Drop)]
pub enum Held<M, A, R> {
    /// The machine is in slot 0, while nobody has the turn.
    Machine(Core<M, A, R>),
    /// Nothing: the slot of a free place, or one that a seat has emptied.
    Nothing,
    /// What was asked at a place.
    Ask(A),
    /// What was answered there.
    Answer(R),
}

/// An ask, and the place at which it stood.
pub struct Asked<A> {
    /// The number of the place, from 1.
    pub place: u64,
    /// What was asked.
    pub ask: A,
}

/// One step of the history.
pub struct GroupEntry<A, R> {
    /// What was asked, in the order in which the machine took it.
    pub asks: LinkedList<Asked<A>>,
    /// The answers, in the same order.
    pub answers: LinkedList<R>,
}

/// An ask that was answered, and where it stands in the history.
pub struct Done<A, R> {
    /// The place at which it stood.
    pub place: u64,
    /// How many entries are before its own.
    pub entry: u64,
    /// How many asks are before it in that entry.
    pub index: u64,
    /// What was asked.
    pub ask: A,
    /// What was answered.
    pub answer: R,
}

/// Whether a seat has the turn.
pub enum Turn<M, A, R> {
    /// It has not.
    Idle,
    /// It has: the word while it is taken, the value that was found, and what it has collected.
    Leads(u64, M, LinkedList<Asked<A>>),
    /// It has, and its step is in the history: the word, the value after it, and the answers that it owes.
    Owes(u64, M, LinkedList<Done<A, R>>),
    /// It keeps the turn for good, and the machine is back in its slot.
    Shut,
}

/// Whether a seat has a place.
pub enum Sits<A, R> {
    /// It has none.
    Stands,
    /// It has this one, and what was asked there before is done.
    At(u64, LinkedList<Done<A, R>>),
    /// The same, and it has asked this since the history had so many entries.
    Waits(u64, LinkedList<Done<A, R>>, A, u64),
}

/// What a seat knows.
pub struct View<M, A, R> {
    /// False once the seat was joined into another; the rule then says nothing about it.
    pub live: bool,
    /// The value that the machine had when the gate was made.
    pub opening: Option<M>,
    /// A prefix of the history.
    pub seen: LinkedList<GroupEntry<A, R>>,
    /// What the seat last joined into this one had seen.
    pub also: LinkedList<GroupEntry<A, R>>,
    /// Whether it has the turn.
    pub turn: Turn<M, A, R>,
    /// Whether it has a place.
    pub sits: Sits<A, R>,
}
