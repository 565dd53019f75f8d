// What a seat knows. No value of these types is ever made: they are only for contracts.
use std::collections::LinkedList;

/// One step of the history, and the number of the seat that made it.
pub struct HistoryEntry<E, R> {
    /// The number of the seat.
    pub by: u64,
    /// What happened to the machine.
    pub event: E,
    /// What it answered.
    pub reply: R,
}

/// An entry, and its place in the history, from 0.
pub struct Made<E, R> {
    /// How many entries are before it.
    pub place: u64,
    /// The entry.
    pub entry: HistoryEntry<E, R>,
}

/// Whether a seat has the turn.
pub enum Turn<M> {
    /// It has not.
    Idle,
    /// It has, with the word while it is taken and the value that was found.
    Has(u64, M),
    /// It keeps the turn for good, and the value is back in its slot.
    Shut,
}

/// What a seat knows.
pub struct View<M, E, R> {
    /// False once the seat was joined into another; the rule then says nothing about it.
    pub live: bool,
    /// The value that the machine had when the gate was made.
    pub opening: Option<M>,
    /// A prefix of the history.
    pub seen: LinkedList<HistoryEntry<E, R>>,
    /// The entries of it that the seat made, with their places.
    pub mine: LinkedList<Made<E, R>>,
    /// The shorter of what this seat and the seat last joined into it had seen.
    pub also: LinkedList<HistoryEntry<E, R>>,
    /// Whether the number is known; a new seat learns it at its first look.
    pub named: bool,
    /// The number by which entries name the seat.
    pub number: u64,
    /// The number of a seat that this one was split from or joined with.
    pub other: u64,
    /// Whether there is such a seat.
    pub met: bool,
    /// Whether it has the turn.
    pub turn: Turn<M>,
}
