// What a payload says.
use frame_wire::StoreCommand;
use store_tables::TableRow;

/// A command that was accepted, or a row of a snapshot.
#[derive(Drop)]
pub enum PayloadBody {
    /// A command.
    Command { command: StoreCommand },
    /// A row of a snapshot.
    Row { row: TableRow },
}

/// A payload of the store's journal.
#[derive(Drop)]
pub struct StorePayload {
    /// When the command was accepted, or the snapshot made, in milliseconds since 1970.
    pub now: u64,
    /// What it says.
    pub body: PayloadBody,
}
