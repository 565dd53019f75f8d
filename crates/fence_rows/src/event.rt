// What happens to a fenced store, and what it answers.
use frame_wire::{StoreAnswer, StoreCommand};
use store_core::CompactEnd;

/// What a fenced store is asked.
#[derive(Drop)]
pub enum FencedCommand {
    /// A command without an epoch. A transaction needs one, so it is answered `Unfenced`.
    Plain { command: StoreCommand },
    /// A transaction of this epoch; `command` is a `StoreCommand::Tx`.
    Tx { epoch: u64, command: StoreCommand },
}

/// What a fenced store answers. All but `Answer` leave it as it was.
#[derive(Drop)]
pub enum FencedAnswer {
    /// The answer of the store, or a refusal with the store's words.
    Answer { answer: StoreAnswer },
    /// The epoch of the actor is `seen`, and that of the transaction is below it.
    StaleEpoch { seen: u64 },
    /// The operation with index `op`, counted from 0, names the key at which the epoch stands.
    ReservedKey { op: u32 },
    /// A transaction without an epoch.
    Unfenced,
}

/// What happens to a fenced store.
#[derive(Drop)]
pub enum FencedEvent {
    /// A command, at a moment in milliseconds since 1970.
    Command { command: FencedCommand, now: u64 },
    /// A compaction at such a moment, if the live file has at least `least` bytes.
    Compact { least: u64, now: u64 },
}

/// What a fenced store answers to an event.
#[derive(Drop)]
pub enum FencedOutcome {
    /// The answer to a command.
    Answer { answer: FencedAnswer },
    /// How a compaction ended.
    CompactIs { end: CompactEnd },
}
