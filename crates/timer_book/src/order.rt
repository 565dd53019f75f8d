// The order of timers: by space, type, id and name.
ghost use Rattle.std.specs.Prelude.{◌≡◌};
ghost use Rattle.timer_book.specs.Entries.{entry_place, timer_place, actor_place, place_cmp};

use crate::entry::TimerEntry;
use actor_names::{ActorKey, RecordName};
use std::cmp::Ordering;

/// How a timer compares with this key and name: by space, then type, then id, then name, each in byte order.
pub(crate) fn timer_cmp(entry: &TimerEntry, key: &ActorKey, name: &RecordName) -> Ordering
    ensures { result ≡ place_cmp (entry_place entry.now) (timer_place key.now name.now) }
{
    match actor_cmp(entry, key) {
        Ordering::Equal => entry.name.as_slice().cmp(&name.as_slice()),
        other => other,
    }
}

/// How a timer's actor compares with this one: by space, then type, then id.
pub(crate) fn actor_cmp(entry: &TimerEntry, key: &ActorKey) -> Ordering
    ensures { result ≡ place_cmp (actor_place entry.now.key) (actor_place key.now) }
{
    match entry.key.space.as_slice().cmp(&key.space.as_slice()) {
        Ordering::Equal => match entry.key.kind.as_slice().cmp(&key.kind.as_slice()) {
            Ordering::Equal => entry.key.id.as_slice().cmp(&key.id.as_slice()),
            other => other,
        },
        other => other,
    }
}
