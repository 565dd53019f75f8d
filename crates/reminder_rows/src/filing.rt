// The tree nodes of a record.
ghost use Rattle.std.specs.Prelude.{◌≡◌, IfOk};

use crate::row::{DueKey, ReminderRow};
use actor_names::OutOfMemory;
use search_tree::{Node, leaf};
use std::alloc::Global;

/// A record and its key in the order in which records are due, each in a node.
#[derive(Drop)]
pub(crate) struct Filing {
    pub(crate) row: Box<Node<ReminderRow>>,
    pub(crate) key: Box<Node<DueKey>>,
}

/// The key of this record in a node, and a node for the record itself.
pub(crate) fn filing_of(alloc: Global, row: &ReminderRow) -> Result<Filing, OutOfMemory>
    ensures { IfOk result (λ filing. filing.key.value.element ≡ row.now.key) }
{
    let key = leaf(alloc, row.key.copy(alloc)?)?;
    let row = leaf(alloc, row.blank(alloc)?)?;
    Ok(Filing { row, key })
}
