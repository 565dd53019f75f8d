// How entries are ordered in a search tree: by actor, then by key.
ghost use Rattle.std.specs.Prelude.{◌≡◌, refl, None};
ghost use Rattle.state_rows.specs.Entries.{row_cmp, at_row};
ghost use Rattle.state_rows.specs.Orders.{rows_total};

use crate::entry::StateEntry;
use actor_names::ActorKey;
use search_tree::{Element, Probe};
use std::cmp::Ordering;

// How an entry compares with this actor and key.
fn entry_cmp(entry: &StateEntry, actor: &ActorKey, key: &str) -> Ordering
    ensures { result ≡ at_row actor.now key.now entry.now }
{
    match entry.actor.cmp(actor) {
        Ordering::Equal => entry.key.as_str().as_bytes().cmp(&key.as_bytes()),
        other => other,
    }
}

impl Element for StateEntry {
    type Summary = ();

    ghost cmp = { row_cmp };

    ghost summary = { λ _. tt };

    ghost first = { λ _. None };

    fn order(&self, other: &StateEntry) -> Ordering {
        entry_cmp(self, &other.actor, other.key.as_str())
    }

    fn summary_of_none() {}

    fn summary_around(_left: (), _element: &StateEntry, _right: ()) {}

    fn first_side(_left: (), _element: &StateEntry, _right: ()) -> Ordering {
        Ordering::Less
    }

    ghost no_first = { refl };

    ghost total = { rows_total };
}

/// The entry of an actor and a key.
#[derive(Drop)]
pub(crate) struct RowPlace<'a> {
    pub(crate) actor: &'a ActorKey,
    pub(crate) key: &'a str,
}

impl<'a> Probe<StateEntry> for RowPlace<'a> {
    ghost at = { λ p e. at_row p.actor.now p.key.now e };

    fn compare(&self, element: &StateEntry) -> Ordering {
        entry_cmp(element, self.actor, self.key)
    }
}
