// What happens to a store, and what it answers.
use frame_wire::{StoreAnswer, StoreCommand};
use tx_journal::JournalError;

/// How a compaction ended.
#[derive(Drop)]
pub enum CompactEnd {
    /// The file that wasn't live is the live one; behind its Generation it has `rows` rows.
    Compacted { rows: u64 },
    /// The live file has `len` bytes, fewer than were asked for.
    NotNeeded { len: u64 },
    /// The journal refused it. After a disk fault the store must be opened again; otherwise it goes on as before.
    Failed { error: JournalError },
    /// There was no memory for a row. The store goes on as before.
    OutOfMemory,
}

/// What happens to a store.
#[derive(Drop)]
pub enum StoreEvent {
    /// A command, at a moment in milliseconds since 1970.
    Command { command: StoreCommand, now: u64 },
    /// A compaction at such a moment, if the live file has at least `least` bytes.
    Compact { least: u64, now: u64 },
}

/// What a store answers.
#[derive(Drop)]
pub enum StoreOutcome {
    /// The answer to a command.
    Answer { answer: StoreAnswer },
    /// How a compaction ended.
    CompactIs { end: CompactEnd },
}
