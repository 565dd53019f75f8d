// What the calls of a cell answer.
use thiserror::Error;

/// What happened to a call that asked for a turn.
#[derive(Clone, Copy)]
pub enum Asked {
    /// Its turn is open.
    Begun,
    /// It is in the queue, at this place counted from 1. Moved calls before it count too.
    Waits { place: u64 },
}

/// Why a call was refused; the cell is as before.
#[derive(Clone, Copy, Debug, Error)]
pub enum CellError {
    /// The call's chain already has as many open turns as the depth allows.
    #[error("{turns} turns of the chain are open")]
    Depth { turns: u64 },
    /// The call would have to wait, and the queue is full: it has `n` calls, the maximum of 1,024.
    #[error("{n} calls wait")]
    QueueFull { n: u64 },
    /// Out of memory for the call, or for a new cell.
    #[error("out of memory")]
    OutOfMemory,
}

/// The outcome of ending a turn.
#[derive(Clone, Copy)]
pub enum CellEnd {
    /// It has ended. If `next` is a call, the turn of that call has begun.
    Ended { next: Option<u64> },
    /// The call is neither open nor in the queue.
    AlreadyEnded,
    /// The call is in the queue.
    StillWaiting,
}

/// The state of a call.
#[derive(Clone, Copy)]
pub enum CellPoll {
    /// Its turn is open.
    Begun,
    /// It is in the queue, at this place counted from 1.
    Waits { place: u64 },
    /// It was moved. `poll` has removed it from the queue; `look` leaves it there.
    Moved,
    /// It is neither open nor in the queue.
    Gone,
}

/// There is no hold to release.
#[derive(Clone, Copy, Debug, Error)]
#[error("nothing is held")]
pub struct NotHeld;
