// The records that are filed: in one tree by actor and name, and their keys in another one by moment.
ghost use Rattle.std.specs.Prelude.{◌≡◌, [], None, is_some, option_copied};
ghost use Rattle.lists_and_limits.specs.Lists.{first_behind, with_put};
ghost use Rattle.lists_and_limits.specs.Orders.{Ascends};
ghost use Rattle.lists_and_limits.specs.Walks.{following};
ghost use Rattle.reminder_rows.specs.Reminders.{row_cmp, after_at, row_at, without_row, by_due, refired};
ghost use Rattle.reminder_rows.specs.Filing.{row_in, IsKeyed};

use crate::filing::Filing;
use crate::row::{DueKey, ReminderRow};
use crate::standing::{AfterPlace, DuePlace, NamePlace};
use actor_names::{ActorKey, RecordName};
use schedule_text::Moment;
use search_tree::Tree;
use std::marker::Model;

/// Records in order of actor and name, each once.
#[derive(Drop)]
pub(crate) struct Filed {
    rows: Tree<ReminderRow>,
    // The keys of these records, in the order in which they are due.
    dues: Tree<DueKey>,
}

impl Model for Filed {
    ghost use Rattle.std.specs.Prelude.{List};
    ghost use Rattle.reminder_rows.specs.declared.row.ReminderRow.{ReminderRow};
    ghost use Rattle.reminder_rows.specs.Filing.{IsFiled};

    ghost Value = { List ReminderRow };

    ghost view = { λ a. a.rows };

    ghost invariant = { λ a. IsFiled a.rows a.dues };
}

impl Filed {
    /// An empty collection of records. It takes no memory.
    pub(crate) fn new() -> Filed
        ensures { result ≡ [] }
    {
        Filed {
            rows: Tree::new(),
            dues: Tree::new(),
        }
    }

    /// The records are in order, with each actor and name once.
    pub(crate) fn in_order(&self)
        ensures { Ascends row_cmp self.now }
    {
        let _rows = &self.rows;
    }

    /// The record of this actor and name.
    pub(crate) fn get(&self, actor: &ActorKey, name: &RecordName) -> Option<&ReminderRow>
        ensures { option_copied result ≡ row_at actor.now name.now self.now }
    {
        self.rows.get(&NamePlace { actor, name })
    }

    /// The first key behind `after`, or the first one of all, in the order in which records are due.
    pub(crate) fn next(&self, after: Option<&DueKey>) -> Option<&DueKey>
        ensures { option_copied result ≡ first_behind (after_at (option_copied after.entry)) (by_due self.now) }
    {
        self.dues.next(&AfterPlace { after })
    }

    /// The first record behind this one in order of actor and name, or the first one of all.
    pub(crate) fn following(&self, after: Option<&ReminderRow>) -> Option<&ReminderRow>
        ensures { option_copied result ≡ following row_cmp (option_copied after.entry) self.now }
    {
        self.rows.following(after)
    }

    /// Takes out the record of this actor and name, if there is one. It takes no memory.
    pub(crate) fn take(&mut self, actor: &ActorKey, name: &RecordName) -> Option<Filing>
        ensures taken { row_in result ≡ row_at actor.now name.now self.old }
        ensures rest { self.new ≡ without_row actor.now name.now self.old }
        ensures keyed { IsKeyed result }
    {
        match self.rows.take(&NamePlace { actor, name }) {
            None => None,
            Some(row) => match self.dues.take(&DuePlace {
                key: &row.element.key,
            }) {
                None => None,
                Some(key) => Some(Filing { row, key }),
            },
        }
    }

    /// Removes the record of this actor and name, and answers whether there was one. It takes no memory.
    pub(crate) fn remove(&mut self, actor: &ActorKey, name: &RecordName) -> bool
        ensures there { result ≡ is_some (row_at actor.now name.now self.old) }
        ensures rest { self.new ≡ without_row actor.now name.now self.old }
    {
        match self.take(actor, name) {
            None => false,
            Some(_filing) => true,
        }
    }

    /// Puts a record whose actor and name have none yet. It takes no memory.
    pub(crate) fn put(&mut self, filing: Filing)
        requires new { row_at filing.row.value.element.key.actor filing.row.value.element.key.name self.old ≡ None }
        requires keyed { filing.key.value.element ≡ filing.row.value.element.key }
        ensures { self.new ≡ with_put row_cmp filing.row.value.element self.old }
    {
        self.rows.put(filing.row);
        self.dues.put(filing.key);
    }

    /// Makes the record of this actor and name, if there is one, due again at `moment`, with `left` firings left. It
    /// takes no memory.
    pub(crate) fn refire(
        &mut self,
        actor: &ActorKey,
        name: &RecordName,
        moment: Moment,
        left: Option<u32>,
    )
        ensures { self.new ≡ refired (row_at actor.now name.now self.old) moment left self.old }
    {
        self.in_order();
        match self.take(actor, name) {
            None => {}
            Some(mut filing) => {
                filing.row.element.fire(moment, left);
                filing.key.element.moment = moment;
                self.put(filing);
            }
        }
    }
}
