// A call with its turn, as a book keeps it.
ghost use Rattle.std.specs.Prelude.{◌≡◌};

use crate::entry::CallEntry;

/// A call and its turn: calls that began later have greater turns.
#[derive(Drop)]
pub(crate) struct Row {
    pub(crate) entry: CallEntry,
    pub(crate) turn: u64,
}
