// The timers of a book, in order of key and name.
ghost use Rattle.std.specs.Prelude.{◌≡◌, [], Some, is_some, OnOk, OnErr, option_copied};
ghost use Rattle.timer_book.specs.declared.entry.TimerEntry.{TimerEntry};
ghost use Rattle.timer_book.specs.Entries.{timer_place, entry_at, put_entry, without_entry, count_of, without_actor, due_entry, Ascends};
ghost use Rattle.timer_book.specs.Book.{registered, started_entry, finished_entry, fired_entry, next_after};

use crate::entry::TimerEntry;
use crate::standing::NextFiring;
use crate::timers::{change, count, first, get, put, remove, remove_all_of};
use actor_names::{ActorKey, OutOfMemory, RecordName};
use schedule_text::{Moment, Next};
use search_tree::Tree;
use std::alloc::Global;
use std::marker::Model;

// How many timers may ever be put; a book draws no more numbers than that.
const MOST_PUT: u64 = 1 << 62;

/// Timers in order of space, type, id and name.
#[derive(Drop)]
pub(crate) struct Shelf {
    tree: Tree<TimerEntry>,
    // How many timers were ever put, so at least as many as there are.
    was_put: u64,
    alloc: Global,
}

impl Model for Shelf {
    ghost use Rattle.std.specs.Prelude.{List, length, ◌≤◌, ◌^◌};
    ghost use Rattle.timer_book.specs.declared.entry.TimerEntry.{TimerEntry};
    ghost use Rattle.timer_book.specs.Entries.{Ascends};

    ghost Value = { List TimerEntry };

    ghost view = { λ a. a.tree };

    ghost invariant = { λ a. Ascends a.tree × (length a.tree ≤ a.was_put) × (a.was_put ≤ 2 ^ 62) };
}

impl Shelf {
    /// An empty shelf; takes no memory.
    pub(crate) fn new(alloc: Global) -> Shelf
        ensures { result ≡ [] }
    {
        Shelf {
            tree: Tree::new(),
            was_put: 0,
            alloc,
        }
    }

    /// The timers are in order, and each key and name is there at most once.
    pub(crate) fn in_order(&self)
        ensures { Ascends self.now }
    {
        let _tree = &self.tree;
    }

    /// How many timers the actor has.
    pub(crate) fn count(&self, key: &ActorKey) -> usize
        ensures { result ≡ count_of key.now self.now }
    {
        count(&self.tree, key)
    }

    /// Whether there is a timer with this key and name.
    pub(crate) fn has(&self, key: &ActorKey, name: &RecordName) -> bool
        ensures { result ≡ is_some (entry_at (timer_place key.now name.now) self.now) }
    {
        match get(&self.tree, key, name) {
            None => false,
            Some(_) => true,
        }
    }

    /// Puts a timer in its place, and replaces one with its key and name. After 2^62 timers it refuses any other.
    pub(crate) fn put(&mut self, entry: TimerEntry) -> Result<(), OutOfMemory>
        ensures ok { OnOk result (self.new ≡ put_entry entry self.old) }
        ensures err { OnErr result (self.new ≡ self.old) }
    {
        if self.was_put >= MOST_PUT {
            return Err(OutOfMemory);
        }
        put(&mut self.tree, self.alloc, entry)?;
        self.was_put += 1;
        Ok(())
    }

    /// Removes the timer with this key and name, and returns whether there was one; takes no memory.
    pub(crate) fn remove(&mut self, key: &ActorKey, name: &RecordName) -> bool
        ensures there { result ≡ is_some (entry_at (timer_place key.now name.now) self.old) }
        ensures gone { self.new ≡ without_entry (timer_place key.now name.now) self.old }
    {
        remove(&mut self.tree, key, name)
    }

    // The timer with this key and name fires again, or is removed.
    fn refire(&mut self, key: &ActorKey, name: &RecordName, next: &Next)
        ensures { (e : TimerEntry) → entry_at (timer_place key.now name.now) self.old ≡ Some e → self.new ≡ fired_entry e next.now self.old }
    {
        match *next {
            Next::At { moment, left } => {
                let next = NextFiring {
                    moment,
                    left,
                    running: false,
                };
                change(&mut self.tree, key, name, &next);
            }
            Next::Done => {
                let _there = self.remove(key, name);
            }
            Next::OutOfRange => {
                let _there = self.remove(key, name);
            }
        }
    }

    /// The timer that is to fire first among those that wait: those to fire by `now` whose callback doesn't run.
    pub(crate) fn due(&self, now: Moment) -> Option<&TimerEntry>
        ensures { option_copied result ≡ due_entry now self.now }
    {
        match first(&self.tree) {
            None => None,
            Some(entry) => {
                if entry.moment.nanos() <= now.nanos() {
                    Some(entry)
                } else {
                    None
                }
            }
        }
    }

    /// The callback of the registration with this number runs; returns whether it is still there. Takes no memory.
    pub(crate) fn start(&mut self, key: &ActorKey, name: &RecordName, number: u64) -> bool
        ensures there { result ≡ is_some (registered self.old key.now name.now number) }
        ensures started { self.new ≡ started_entry (registered self.old key.now name.now number) self.old }
    {
        match get(&self.tree, key, name) {
            None => false,
            Some(entry) => {
                let drawn = entry.number;
                if drawn != number {
                    return false;
                }
                let next = NextFiring {
                    moment: entry.moment,
                    left: entry.left,
                    running: true,
                };
                change(&mut self.tree, key, name, &next);
                true
            }
        }
    }

    /// The callback of this registration has ended; returns what follows. Takes no memory.
    pub(crate) fn finish(
        &mut self,
        key: &ActorKey,
        name: &RecordName,
        number: u64,
        ended: Moment,
    ) -> Next
        ensures next { result ≡ next_after (registered self.old key.now name.now number) ended }
        ensures finished { self.new ≡ finished_entry (registered self.old key.now name.now number) ended self.old }
    {
        match get(&self.tree, key, name) {
            None => Next::Done,
            Some(entry) => {
                if entry.number != number {
                    return Next::Done;
                }
                let next = entry.next(ended);
                self.refire(key, name, &next);
                next
            }
        }
    }

    /// Removes every timer of the actor; takes no memory.
    pub(crate) fn drop_actor(&mut self, key: &ActorKey)
        ensures { self.new ≡ without_actor key.now self.old }
    {
        remove_all_of(&mut self.tree, key);
    }
}
