// The book of an actor host's timers.
ghost use Rattle.std.specs.Prelude.{◌≡◌, ◌+◌, IfOk, OnOk, OnErr, IfErr, IfSome};
ghost use Rattle.timer_book.specs.declared.error.TimerError.TheVariants.{OutOfMemory};
ghost use Rattle.timer_book.specs.Entries.{Ascends};
ghost use Rattle.timer_book.specs.Book.{new_book, set_refusal, or_memory, set_timer, has_timer, delete_timer, due_timer, is_registered, start_timer, finish_next, finish_timer, drop_timers};

use crate::entry::{DueTimer, new_entry};
use crate::error::TimerError;
use crate::shelf::Shelf;
use crate::timer::Timer;
use actor_names::{ActorKey, RecordName};
use schedule_text::{Moment, Next};
use std::alloc::Global;
use std::marker::Model;

/// The greatest number of timers of one actor.
pub const MOST_TIMERS: usize = 1024;

// The last registration number.
pub(crate) const LAST_NUMBER: u64 = 1 << 62;

/// The timers of actors. Each registration has its own number, from 1. A timer fires at a moment, its callback runs,
/// and its next moment counts from the end of that callback. Own; timers follow the Actors API of Dapr.
#[derive(Drop)]
pub struct TimerBook {
    drawn: u64,
    timers: Shelf,
    alloc: Global,
}

impl Model for TimerBook {
    ghost use Rattle.std.specs.Prelude.{◌≤◌, ◌^◌};
    ghost use Rattle.timer_book.specs.Book.{BookState};

    ghost Value = { BookState };

    ghost view = { λ a. record { drawn = a.drawn; timers = a.timers } };

    ghost invariant = { λ a. a.drawn ≤ 2 ^ 62 };
}

impl TimerBook {
    /// An empty book; takes no memory.
    pub fn new(alloc: Global) -> TimerBook
        ensures { result ≡ new_book }
    {
        TimerBook {
            drawn: 0,
            timers: Shelf::new(alloc),
            alloc,
        }
    }

    // The timers are in order, and each key and name is there at most once.
    pub(crate) fn in_order(&self)
        ensures { Ascends self.now.timers }
    {
        self.timers.in_order();
    }

    // Why a registration is refused, apart from running out of memory.
    fn refusal(&self, key: &ActorKey, name: &RecordName) -> Option<TimerError>
        ensures { result ≡ set_refusal self.now key.now name.now }
    {
        if self.timers.count(key) >= MOST_TIMERS && !self.timers.has(key, name) {
            return Some(TimerError::Full);
        }
        if self.drawn == LAST_NUMBER {
            return Some(TimerError::Spent);
        }
        None
    }

    /// Registers a timer, replacing one with its key and name, and returns the number of the registration. A schedule
    /// without a first moment leaves no timer of this name. The errors are `Full` if the actor has 1,024 timers and
    /// none of this name, then `Spent` if 2^62 numbers were drawn, then `OutOfMemory`; each leaves the book as before.
    /// The call also takes the room that the calls without a `Result` need.
    pub fn set(
        &mut self,
        key: &ActorKey,
        name: &RecordName,
        timer: Timer,
    ) -> Result<u64, TimerError>
        ensures number { IfOk result (λ number. number ≡ self.old.drawn + 1) }
        ensures book { OnOk result (self.new ≡ set_timer self.old key.now name.now timer) }
        ensures refused { IfSome (set_refusal self.old key.now name.now) (λ e. result ≡ Err e) }
        ensures cause { IfErr result (λ e. e ≡ or_memory (set_refusal self.old key.now name.now)) }
        ensures same { OnErr result (self.new ≡ self.old) }
    {
        if let Some(error) = self.refusal(key, name) {
            return Err(error);
        }
        let number = self.drawn + 1;
        match timer.schedule.first {
            None => {
                let _was = self.delete(key, name);
            }
            Some(first) => {
                let entry = new_entry(self.alloc, key, name, number, first, timer)?;
                self.timers.put(entry)?;
            }
        }
        self.drawn = number;
        Ok(number)
    }

    /// Removes the timer with this key and name, and returns whether there was one; takes no memory.
    pub fn delete(&mut self, key: &ActorKey, name: &RecordName) -> bool
        ensures there { result ≡ has_timer self.old key.now name.now }
        ensures book { self.new ≡ delete_timer self.old key.now name.now }
    {
        self.timers.remove(key, name)
    }

    /// The timer that is to fire first, by moment, then key, then name, among those that are to fire at or before
    /// `now` and whose callback doesn't run; `None` exactly if there is none. The only error is `OutOfMemory`.
    pub fn due(&self, now: Moment) -> Result<Option<DueTimer>, TimerError>
        ensures value { IfOk result (λ due. due ≡ due_timer self.now now) }
        ensures err { IfErr result (λ e. e ≡ OutOfMemory) }
    {
        match self.timers.due(now) {
            None => Ok(None),
            Some(entry) => {
                let due = entry.due(self.alloc)?;
                Ok(Some(due))
            }
        }
    }

    /// The callback of the registration with this number runs now, and `due` doesn't give its timer until it has
    /// finished. Returns true if the registration is still there, even if its callback ran already; otherwise nothing
    /// changes. Takes no memory.
    pub fn started(&mut self, key: &ActorKey, name: &RecordName, number: u64) -> bool
        ensures there { result ≡ is_registered self.old key.now name.now number }
        ensures book { self.new ≡ start_timer self.old key.now name.now number }
    {
        self.timers.start(key, name, number)
    }

    /// The callback of the registration with this number has ended. The timer's next moment is `ended` plus the period,
    /// with one firing fewer left, and its callback no longer runs. If no firing follows, the timer is removed. `Done`
    /// if the registration is gone, and then nothing changes. Takes no memory.
    pub fn finished(
        &mut self,
        key: &ActorKey,
        name: &RecordName,
        number: u64,
        ended: Moment,
    ) -> Next
        ensures next { result ≡ finish_next self.old key.now name.now number ended }
        ensures book { self.new ≡ finish_timer self.old key.now name.now number ended }
    {
        self.timers.finish(key, name, number, ended)
    }

    /// Removes every timer of the actor: timers are lost when their actor is deactivated. Takes no memory.
    pub fn drop_actor(&mut self, key: &ActorKey)
        ensures { self.new ≡ drop_timers self.old key.now }
    {
        self.timers.drop_actor(key);
    }
}
