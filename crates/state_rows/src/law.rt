// What the definitions mean: a map from actors and keys to entries.
ghost use Rattle.std.specs.Prelude.{◌≡◌, ℕ, List, Some, None, false};
ghost use Rattle.std.specs.Ordering.{is_eq};
ghost use Rattle.actor_names.specs.declared.actor_key.ActorKey.{ActorKey};
ghost use Rattle.lists_and_limits.specs.Lists.{without, with_put};
ghost use Rattle.lists_and_limits.specs.Orders.{Ascends};
ghost use Rattle.state_rows.specs.declared.entry.StateEntry.{StateEntry};
ghost use Rattle.state_rows.specs.Entries.{place_cmp, row_cmp, at_row, entry_at};

use crate::rows::StateRows;

/// The entries are in order, with each actor and key once, so they are a map. An entry that is put is found under its
/// actor and key, one that is removed isn't found, and every other one is as before.
pub fn state_law(rows: &StateRows)
    ensures order { Ascends row_cmp rows.now }
    ensures put { (e : StateEntry) (es : List StateEntry) → entry_at e.actor e.key (with_put row_cmp e es) ≡ Some e }
    ensures put_others { (e : StateEntry) (actor : ActorKey) (key : List ℕ) (es : List StateEntry) → is_eq (at_row actor key e) ≡ false → entry_at actor key (with_put row_cmp e es) ≡ entry_at actor key es }
    ensures removed { (actor : ActorKey) (key : List ℕ) (es : List StateEntry) → Ascends row_cmp es → entry_at actor key (without (at_row actor key) es) ≡ None }
    ensures removed_others { (actor other : ActorKey) (key other_key : List ℕ) (es : List StateEntry) → is_eq (place_cmp actor key other other_key) ≡ false → entry_at other other_key (without (at_row actor key) es) ≡ entry_at other other_key es }
{
    rows.in_order();
}
