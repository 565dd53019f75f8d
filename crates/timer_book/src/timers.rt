// Timers in order, in a search tree: what is found there, and what each change leaves behind.
ghost use Rattle.std.specs.Prelude.{◌≡◌, ◌≤◌, ◌^◌, length, is_some, option_copied, OnOk, OnErr};
ghost use Rattle.timer_book.specs.Entries.{timer_place, entry_at, count_of, put_entry, without_entry, without_actor, Ascends};
ghost use Rattle.timer_book.specs.Soonest.{first_of};
ghost use Rattle.timer_book.specs.Changes.{changed_entry};

use crate::entry::TimerEntry;
use crate::standing::{ActorPlace, NextFiring, TimerPlace};
use actor_names::{ActorKey, OutOfMemory, RecordName};
use search_tree::{Tree, leaf};
use std::alloc::Global;

/// The timer with this key and name.
pub(crate) fn get<'t>(
    tree: &'t Tree<TimerEntry>,
    key: &ActorKey,
    name: &RecordName,
) -> Option<&'t TimerEntry>
    requires { Ascends tree.now }
    ensures { option_copied result ≡ entry_at (timer_place key.now name.now) tree.now }
{
    tree.get(&TimerPlace { key, name })
}

/// The timer that is to fire first among those whose callback doesn't run.
pub(crate) fn first(tree: &Tree<TimerEntry>) -> Option<&TimerEntry>
    ensures { option_copied result ≡ first_of tree.now }
{
    tree.first()
}

/// How many timers the actor has; timers of other actors are skipped.
pub(crate) fn count(tree: &Tree<TimerEntry>, key: &ActorKey) -> usize
    requires order { Ascends tree.now }
    requires fits { length tree.now ≤ 2 ^ 62 }
    ensures { result ≡ count_of key.now tree.now }
{
    tree.count(&ActorPlace { key })
}

/// Puts a timer in its place, and replaces one with its key and name.
pub(crate) fn put(
    tree: &mut Tree<TimerEntry>,
    alloc: Global,
    entry: TimerEntry,
) -> Result<(), OutOfMemory>
    requires { Ascends tree.old }
    ensures ok { OnOk result (tree.new ≡ put_entry entry tree.old) }
    ensures err { OnErr result (tree.new ≡ tree.old) }
{
    let node = leaf(alloc, entry)?;
    tree.put(node);
    Ok(())
}

/// Changes the moment, the firings left and the running mark of the timer with this key and name, if there is one.
pub(crate) fn change(
    tree: &mut Tree<TimerEntry>,
    key: &ActorKey,
    name: &RecordName,
    next: &NextFiring,
)
    requires { Ascends tree.old }
    ensures { tree.new ≡ changed_entry (entry_at (timer_place key.now name.now) tree.old) next.now.moment next.now.left next.now.running tree.old }
{
    tree.change(&TimerPlace { key, name }, next);
}

/// Removes the timer with this key and name, and returns whether there was one.
pub(crate) fn remove(tree: &mut Tree<TimerEntry>, key: &ActorKey, name: &RecordName) -> bool
    requires { Ascends tree.old }
    ensures there { result ≡ is_some (entry_at (timer_place key.now name.now) tree.old) }
    ensures gone { tree.new ≡ without_entry (timer_place key.now name.now) tree.old }
{
    tree.remove(&TimerPlace { key, name })
}

/// Removes every timer of the actor.
pub(crate) fn remove_all_of(tree: &mut Tree<TimerEntry>, key: &ActorKey)
    requires { Ascends tree.old }
    ensures { tree.new ≡ without_actor key.now tree.old }
{
    tree.remove_all(&ActorPlace { key });
}
