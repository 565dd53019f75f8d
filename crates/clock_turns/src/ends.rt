// How a turn by the clock ends.
use frame_wire::StoreAnswer;

/// How a turn by the clock ends.
#[derive(Debug, Drop)]
pub enum TickEnd {
    /// Everything that was to be done was done; `turns` calls of actors were begun.
    Done { turns: u32 },
    /// The same, but the connection to the application failed at least once.
    AppFault,
    /// The connection to the store failed.
    StoreFault,
    /// The store refused a command by this answer.
    StoreRefused { answer: StoreAnswer },
    /// The store's answer has no reading.
    StoreReply,
    /// A part has stopped.
    Stopped,
    /// The gate of a part or of a book took no further entry.
    Spent { count: u64 },
    /// There was no memory.
    OutOfMemory,
}
