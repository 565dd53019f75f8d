// How records and their keys are ordered in search trees: by actor and name; by moment, then actor and name.
ghost use Rattle.std.specs.Prelude.{◌≡◌, refl, None, option_copied};
ghost use Rattle.reminder_rows.specs.Reminders.{place_cmp, row_cmp, at_name, due_cmp, after_at};
ghost use Rattle.reminder_rows.specs.Orders.{rows_total, dues_total};

use crate::row::{DueKey, ReminderRow};
use actor_names::{ActorKey, RecordName};
use search_tree::{Element, Probe};
use std::cmp::Ordering;

/// How a key compares with this actor and name.
pub(crate) fn name_cmp(key: &DueKey, actor: &ActorKey, name: &RecordName) -> Ordering
    ensures { result ≡ place_cmp key.now.actor key.now.name actor.now name.now }
{
    match key.actor.cmp(actor) {
        Ordering::Equal => key.name.cmp(name),
        other => other,
    }
}

/// How a key compares with another one, in the order in which records are due.
pub(crate) fn due_cmp(key: &DueKey, other: &DueKey) -> Ordering
    ensures { result ≡ due_cmp key.now other.now }
{
    match key.moment.nanos().cmp(&other.moment.nanos()) {
        Ordering::Equal => name_cmp(key, &other.actor, &other.name),
        other => other,
    }
}

impl Element for ReminderRow {
    type Summary = ();

    ghost cmp = { row_cmp };

    ghost summary = { λ _. tt };

    ghost first = { λ _. None };

    fn order(&self, other: &ReminderRow) -> Ordering {
        name_cmp(&self.key, &other.key.actor, &other.key.name)
    }

    fn summary_of_none() {}

    fn summary_around(_left: (), _element: &ReminderRow, _right: ()) {}

    fn first_side(_left: (), _element: &ReminderRow, _right: ()) -> Ordering {
        Ordering::Less
    }

    ghost no_first = { refl };

    ghost total = { rows_total };
}

impl Element for DueKey {
    type Summary = ();

    ghost cmp = { due_cmp };

    ghost summary = { λ _. tt };

    ghost first = { λ _. None };

    fn order(&self, other: &DueKey) -> Ordering {
        due_cmp(self, other)
    }

    fn summary_of_none() {}

    fn summary_around(_left: (), _element: &DueKey, _right: ()) {}

    fn first_side(_left: (), _element: &DueKey, _right: ()) -> Ordering {
        Ordering::Less
    }

    ghost no_first = { refl };

    ghost total = { dues_total };
}

/// The record of an actor and a name.
#[derive(Drop)]
pub(crate) struct NamePlace<'a> {
    pub(crate) actor: &'a ActorKey,
    pub(crate) name: &'a RecordName,
}

impl<'a> Probe<ReminderRow> for NamePlace<'a> {
    ghost at = { λ p e. at_name p.actor.now p.name.now e };

    fn compare(&self, element: &ReminderRow) -> Ordering {
        name_cmp(&element.key, self.actor, self.name)
    }
}

/// The place that is equal to a key.
#[derive(Drop)]
pub(crate) struct DuePlace<'a> {
    pub(crate) key: &'a DueKey,
}

impl<'a> Probe<DueKey> for DuePlace<'a> {
    ghost at = { λ p k. due_cmp k p.key.now };

    fn compare(&self, element: &DueKey) -> Ordering {
        due_cmp(element, self.key)
    }
}

/// The place of a key; without one, the place before every key.
#[derive(Drop)]
pub(crate) struct AfterPlace<'a> {
    pub(crate) after: Option<&'a DueKey>,
}

impl<'a> Probe<DueKey> for AfterPlace<'a> {
    ghost at = { λ p k. after_at (option_copied p.after) k };

    fn compare(&self, element: &DueKey) -> Ordering {
        match self.after {
            None => Ordering::Greater,
            Some(key) => due_cmp(element, key),
        }
    }
}
