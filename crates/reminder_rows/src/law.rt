// What the definitions mean: a map from actors and names to records, and its keys in the order in which they are due.
ghost use Rattle.std.specs.Prelude.{◌≡◌, ℕ, List, Some, None, false};
ghost use Rattle.std.specs.Ordering.{is_eq};
ghost use Rattle.actor_names.specs.declared.actor_key.ActorKey.{ActorKey};
ghost use Rattle.lists_and_limits.specs.Lists.{found, with_put};
ghost use Rattle.lists_and_limits.specs.Orders.{Ascends};
ghost use Rattle.reminder_rows.specs.declared.row.ReminderRow.{ReminderRow};
ghost use Rattle.reminder_rows.specs.declared.row.DueKey.{DueKey};
ghost use Rattle.reminder_rows.specs.Reminders.{place_cmp, row_cmp, at_name, row_at, without_row, due_cmp, by_due, key_in, TimelyLaw};

use crate::rows::ReminderRows;

/// The records are in order, with each actor and name once, so they are a map. A record that is put is found under its
/// actor and name, one that is removed isn't found, and every other one is as before. Their keys, in the order in which
/// they are due, are those of the records and no others. Each record is due at the first moment of its schedule: there
/// is none at first, and each change keeps that.
pub fn reminder_law(rows: &ReminderRows)
    ensures order { Ascends row_cmp rows.now.rows }
    ensures put { (e : ReminderRow) (es : List ReminderRow) → row_at e.key.actor e.key.name (with_put row_cmp e es) ≡ Some e }
    ensures put_others { (e : ReminderRow) (actor : ActorKey) (name : List ℕ) (es : List ReminderRow) → is_eq (at_name actor name e) ≡ false → row_at actor name (with_put row_cmp e es) ≡ row_at actor name es }
    ensures removed { (actor : ActorKey) (name : List ℕ) (es : List ReminderRow) → Ascends row_cmp es → row_at actor name (without_row actor name es) ≡ None }
    ensures removed_others { (actor other : ActorKey) (name other_name : List ℕ) (es : List ReminderRow) → is_eq (place_cmp actor name other other_name) ≡ false → row_at other other_name (without_row actor name es) ≡ row_at other other_name es }
    ensures due_order { (es : List ReminderRow) → Ascends due_cmp (by_due es) }
    ensures due_records { (k : DueKey) (es : List ReminderRow) → Ascends row_cmp es → found (λ x. due_cmp x k) (by_due es) ≡ key_in k.moment (row_at k.actor k.name es) }
    ensures timely { TimelyLaw }
{
    rows.in_order();
}
