// One record of a reminder, and its key.
ghost use Rattle.std.specs.Prelude.{◌≡◌, IfOk};
ghost use Rattle.std.specs.Ordering.{is_eq};
ghost use Rattle.reminder_rows.specs.Reminders.{at_name, next_of, fired_row};

use crate::reminder::{Reminder, bare_reminder};
use crate::standing::name_cmp;
use actor_names::{ActorKey, OutOfMemory, RecordName};
use schedule_text::{Moment, Next};
use std::alloc::Global;
use std::cmp::Ordering;

/// A place in the order in which records are due: by moment, then by actor, then by name.
#[derive(Debug, Drop)]
pub struct DueKey {
    /// When the record is due.
    pub moment: Moment,
    /// The actor.
    pub actor: ActorKey,
    /// The name among the actor's reminders.
    pub name: RecordName,
}

/// A reminder under a name of an actor.
#[derive(Drop)]
pub struct ReminderRow {
    /// When it is due, and under which name.
    pub key: DueKey,
    /// What is kept.
    pub reminder: Reminder,
}

impl DueKey {
    /// An equal key.
    pub fn copy(&self, alloc: Global) -> Result<DueKey, OutOfMemory>
        ensures { IfOk result (λ copy. copy ≡ self.now) }
    {
        let actor = self.actor.copy(alloc)?;
        let name = self.name.copy(alloc)?;
        Ok(DueKey {
            moment: self.moment,
            actor,
            name,
        })
    }
}

impl ReminderRow {
    /// Whether it is the record of this actor and name.
    pub(crate) fn is_named(&self, actor: &ActorKey, name: &RecordName) -> bool
        ensures { result ≡ is_eq (at_name actor.now name.now self.now) }
    {
        match name_cmp(&self.key, actor, name) {
            Ordering::Equal => true,
            _ => false,
        }
    }

    /// A record that carries nothing, for a node that gets another record later.
    pub(crate) fn blank(&self, alloc: Global) -> Result<ReminderRow, OutOfMemory> {
        let key = self.key.copy(alloc)?;
        Ok(ReminderRow {
            key,
            reminder: bare_reminder(alloc, self.reminder.schedule),
        })
    }

    /// What follows when it fires at `now` for its moment.
    pub(crate) fn next(&self, now: Moment) -> Next
        ensures { result ≡ next_of self.now now }
    {
        self.reminder.schedule.advance(self.key.moment, now)
    }

    /// Makes it due again at `moment`, with `left` firings left.
    pub(crate) fn fire(&mut self, moment: Moment, left: Option<u32>)
        ensures { self.new ≡ fired_row self.old moment left }
    {
        self.key.moment = moment;
        self.reminder.schedule.first = Some(moment);
        self.reminder.schedule.left = left;
    }
}
