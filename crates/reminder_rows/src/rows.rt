// The reminders of actors.
ghost use Rattle.std.specs.Prelude.{◌≡◌, ◌≤◌, [], is_some, option_copied, IfOk, OnOk, OnErr};
ghost use Rattle.std.specs.List.{last_or};
ghost use Rattle.lists_and_limits.specs.Lists.{first_behind};
ghost use Rattle.lists_and_limits.specs.Orders.{Ascends};
ghost use Rattle.lists_and_limits.specs.Walks.{following};
ghost use Rattle.reminder_rows.specs.Reminders.{row_cmp, row_at, without_row, reminder_in, put_row, by_due, after_at, due_keys, refired, after_next, fired_answer, fired_rows};

use crate::error::FiredError;
use crate::filed::Filed;
use crate::filing::filing_of;
use crate::fresh::{fire, first_with, is_named};
use crate::reminder::Reminder;
use crate::row::{DueKey, ReminderRow};
use actor_names::{ActorKey, OutOfMemory, RecordName};
use schedule_text::{Moment, Next};
use std::alloc::Global;
use std::marker::Model;

/// The reminders of actors, each under a name of its actor. Contracts see them in order of actor, then name, and the
/// room for new ones.
#[derive(Drop)]
pub struct ReminderRows {
    filed: Filed,
    // The newest record, until `reserve` makes its nodes: they hold its actor and name twice.
    fresh: Option<ReminderRow>,
    alloc: Global,
}

impl Model for ReminderRows {
    ghost use Rattle.reminder_rows.specs.Reminders.{ReminderState};
    ghost use Rattle.reminder_rows.specs.Filing.{with_fresh, spare_of, IsNew};

    ghost Value = { ReminderState };

    ghost view = { λ a. record { spare = spare_of a.fresh; rows = with_fresh a.fresh a.filed } };

    ghost invariant = { λ a. IsNew a.fresh a.filed };
}

impl ReminderRows {
    /// An empty collection of reminders. It takes no memory.
    pub fn new(alloc: Global) -> ReminderRows
        ensures { result.rows ≡ [] }
    {
        ReminderRows {
            filed: Filed::new(),
            fresh: None,
            alloc,
        }
    }

    // The records are in order, with each actor and name once.
    pub(crate) fn in_order(&self)
        ensures { Ascends row_cmp self.now.rows }
    {
        self.filed.in_order();
    }

    /// Takes the memory that one more `put` needs, so that there is room for at least one. After `OutOfMemory`
    /// everything is as before.
    pub fn reserve(&mut self) -> Result<(), OutOfMemory>
        ensures room { OnOk result (1 ≤ self.new.spare) }
        ensures rows { self.new.rows ≡ self.old.rows }
        ensures err { OnErr result (self.new ≡ self.old) }
    {
        if let Some(row) = &self.fresh {
            let mut filing = filing_of(self.alloc, row)?;
            if let Some(row) = self.fresh.take() {
                filing.row.element = row;
                self.filed.put(filing);
            }
        }
        Ok(())
    }

    // The record of this actor and name.
    fn find(&self, actor: &ActorKey, name: &RecordName) -> Option<&ReminderRow>
        ensures { option_copied result ≡ row_at actor.now name.now self.now.rows }
    {
        match &self.fresh {
            None => self.filed.get(actor, name),
            Some(row) => {
                if row.is_named(actor, name) {
                    Some(row)
                } else {
                    self.filed.get(actor, name)
                }
            }
        }
    }

    /// The reminder of this actor and name, as it is kept. It takes no memory.
    pub fn get(&self, actor: &ActorKey, name: &RecordName) -> Option<&Reminder>
        ensures { option_copied result ≡ reminder_in (row_at actor.now name.now self.now.rows) }
    {
        match self.find(actor, name) {
            None => None,
            Some(row) => Some(&row.reminder),
        }
    }

    /// The first record behind this one in order of actor and name, or the first one of all: the next step of a walk
    /// over all records. It needs room, which `reserve` makes, and takes no memory.
    pub fn following(&self, after: Option<&ReminderRow>) -> Option<&ReminderRow>
        requires { 1 ≤ self.now.spare }
        ensures { option_copied result ≡ following row_cmp (option_copied after.entry) self.now.rows }
    {
        self.filed.following(after)
    }

    /// Removes the reminder of this actor and name, and answers whether there was one. It takes no memory.
    pub fn delete(&mut self, actor: &ActorKey, name: &RecordName) -> bool
        ensures there { result ≡ is_some (row_at actor.now name.now self.old.rows) }
        ensures rows { self.new.rows ≡ without_row actor.now name.now self.old.rows }
        ensures room { self.old.spare ≤ self.new.spare }
    {
        self.filed.in_order();
        if is_named(&self.fresh, actor, name) {
            self.fresh = None;
            return true;
        }
        self.filed.remove(actor, name)
    }

    /// Keeps a reminder, in place of the one of its actor and name. One without a first moment isn't kept, and the old
    /// one goes all the same. It needs room, which `reserve` makes, and takes no memory.
    pub fn put(&mut self, actor: ActorKey, name: RecordName, reminder: Reminder)
        requires { 1 ≤ self.old.spare }
        ensures { self.new.rows ≡ put_row actor name reminder self.old.rows }
    {
        self.in_order();
        let _there = self.delete(&actor, &name);
        let Some(moment) = reminder.schedule.first else {
            return;
        };
        let key = DueKey {
            moment,
            actor,
            name,
        };
        let _none = self.fresh.replace(ReminderRow { key, reminder });
    }

    // The first key behind `after`, or the first one of all.
    fn first_after(&self, after: Option<&DueKey>) -> Option<&DueKey>
        ensures { option_copied result ≡ first_behind (after_at (option_copied after.entry)) (by_due self.now.rows) }
    {
        self.filed.in_order();
        let filed = self.filed.next(after);
        match &self.fresh {
            None => filed,
            Some(row) => first_with(after, &row.key, filed),
        }
    }

    /// The keys of the first records behind `after`, or of the first ones of all, that are due at or before `now`:
    /// `limit` of them, and fewer exactly if there are no more. They are in order of moment, then actor, then name.
    pub fn due(
        &self,
        now: Moment,
        after: Option<&DueKey>,
        limit: u16,
    ) -> Result<Vec<DueKey>, OutOfMemory>
        ensures { IfOk result (λ keys. keys.items ≡ due_keys now (option_copied after.entry) limit self.now.rows) }
    {
        let mut keys = Vec::new(self.alloc);
        for _ in 0..limit {
            match self.first_after(last_or(&keys, after)) {
                None => return Ok(keys),
                Some(key) => {
                    if key.moment.nanos() > now.nanos() {
                        return Ok(keys);
                    }
                    let key = key.copy(self.alloc)?;
                    keys.push(key)?;
                }
            }
        }
        Ok(keys)
    }

    // Makes the record of this actor and name, if there is one, due again at `moment`, with `left` firings left.
    fn refire(&mut self, actor: &ActorKey, name: &RecordName, moment: Moment, left: Option<u32>)
        ensures rows { self.new.rows ≡ refired (row_at actor.now name.now self.old.rows) moment left self.old.rows }
        ensures room { self.new.spare ≡ self.old.spare }
    {
        self.filed.in_order();
        if fire(&mut self.fresh, actor, name, moment, left) {
            return;
        }
        self.filed.refire(actor, name, moment, left);
    }

    // Makes the record of this actor and name due again, or removes it.
    fn follow(&mut self, actor: &ActorKey, name: &RecordName, next: &Next)
        ensures rows { self.new.rows ≡ after_next actor.now name.now next.now self.old.rows }
        ensures room { self.old.spare ≤ self.new.spare }
    {
        match *next {
            Next::At { moment, left } => self.refire(actor, name, moment, left),
            Next::Done | Next::OutOfRange => {
                let _there = self.delete(actor, name);
            }
        }
    }

    /// Records that the reminder of this actor and name fired for `moment`, and answers what follows at `now`. It is
    /// due again then, or it is removed if nothing follows. `NotThere` if there is none, then `OtherMoment` if it is
    /// due at another moment; both leave the reminders as they were. It takes no memory.
    pub fn fired(
        &mut self,
        actor: &ActorKey,
        name: &RecordName,
        moment: Moment,
        now: Moment,
    ) -> Result<Next, FiredError>
        ensures answer { result ≡ fired_answer (row_at actor.now name.now self.old.rows) moment now }
        ensures rows { self.new.rows ≡ fired_rows actor.now name.now (row_at actor.now name.now self.old.rows) moment now self.old.rows }
        ensures room { self.old.spare ≤ self.new.spare }
    {
        match self.find(actor, name) {
            None => Err(FiredError::NotThere),
            Some(row) => {
                let due = row.key.moment;
                if due != moment {
                    return Err(FiredError::OtherMoment { next: due });
                }
                let next = row.next(now);
                self.follow(actor, name, &next);
                Ok(next)
            }
        }
    }
}

// The last of these keys, or the other one if there are none.
fn last_or<'a>(keys: &'a Vec<DueKey>, other: Option<&'a DueKey>) -> Option<&'a DueKey>
    ensures { option_copied result ≡ last_or (option_copied other.entry) keys.now.items }
{
    match keys.last() {
        None => other,
        Some(key) => Some(key),
    }
}
