// The newest record, which isn't in a tree yet, beside those that are filed.
ghost use Rattle.std.specs.Prelude.{◌≡◌, option_copied};
ghost use Rattle.reminder_rows.specs.Filing.{is_named, fired_fresh, earlier_of, first_with};
ghost use Rattle.reminder_rows.specs.Reminders.{is_after, after_at};

use crate::row::{DueKey, ReminderRow};
use crate::standing::{AfterPlace, due_cmp};
use actor_names::{ActorKey, RecordName};
use schedule_text::Moment;
use search_tree::Probe;
use std::cmp::Ordering;

/// Whether there is a newest record, and it is that of this actor and name.
pub(crate) fn is_named(fresh: &Option<ReminderRow>, actor: &ActorKey, name: &RecordName) -> bool
    ensures { result ≡ is_named actor.now name.now fresh.now }
{
    match fresh {
        None => false,
        Some(row) => row.is_named(actor, name),
    }
}

/// Makes the newest record due again at `moment`, with `left` firings left, if it is that of this actor and name;
/// answers whether it is.
pub(crate) fn fire(
    fresh: &mut Option<ReminderRow>,
    actor: &ActorKey,
    name: &RecordName,
    moment: Moment,
    left: Option<u32>,
) -> bool
    ensures named { result ≡ is_named actor.now name.now fresh.old }
    ensures fired { fresh.new ≡ fired_fresh actor.now name.now moment left fresh.old }
{
    match fresh {
        None => false,
        Some(row) => {
            if row.is_named(actor, name) {
                row.fire(moment, left);
                return true;
            }
            false
        }
    }
}

// Whether a key is behind the place of `after`; without one, each key is.
fn is_after(key: &DueKey, after: Option<&DueKey>) -> bool
    ensures { result ≡ is_after (option_copied after.entry) key.now }
{
    match (AfterPlace { after }).compare(key) {
        Ordering::Greater => true,
        _ => false,
    }
}

// The earlier of the key that was found, if there is one, and another one.
fn earlier<'a>(filed: Option<&'a DueKey>, fresh: &'a DueKey) -> &'a DueKey
    ensures { result.now ≡ earlier_of (option_copied filed.entry) fresh.now }
{
    match filed {
        None => fresh,
        Some(key) => match due_cmp(key, fresh) {
            Ordering::Less => key,
            _ => fresh,
        },
    }
}

/// The first key behind the place of `after`, from the first one among the filed records and that of the newest.
pub(crate) fn first_with<'a>(
    after: Option<&DueKey>,
    fresh: &'a DueKey,
    filed: Option<&'a DueKey>,
) -> Option<&'a DueKey>
    ensures { option_copied result ≡ first_with (after_at (option_copied after.entry)) fresh.now (option_copied filed.entry) }
{
    if is_after(fresh, after) {
        Some(earlier(filed, fresh))
    } else {
        filed
    }
}
