// What the definitions mean: a map from keys and names to timers, and the first of the timers that wait.
ghost use Rattle.std.specs.Prelude.{◌≡◌, ◌↔◌, ℕ, List, Some, None, false};
ghost use Rattle.std.specs.declared.cmp.Ordering.TheVariants.{Equal};
ghost use Rattle.std.specs.Ordering.{is_eq};
ghost use Rattle.actor_names.specs.declared.actor_key.ActorKey.{ActorKey};
ghost use Rattle.timer_book.specs.declared.entry.TimerEntry.{TimerEntry};
ghost use Rattle.timer_book.specs.Entries.{timer_place, entry_place, actor_place, place_cmp, is_at, entry_at, put_entry, without_entry, without_actor, due_entry, Ascends, IsFirstDue, NoneWaits};

use crate::book::TimerBook;

/// A book's timers are in order, each key and name at most once, so they are a map. A timer that is put is found
/// under its key and name, a timer that is removed is not, and every other timer is as before. What is found under a
/// key and a name has that key and that name, and two places compare as equal exactly if key and name are the same.
/// The timer that is due is one of those that wait, and no waiting timer is to fire earlier. If no timer is due, none
/// waits.
pub fn timer_law(book: &TimerBook)
    ensures order { Ascends book.now.timers }
    ensures places { (key other : ActorKey) (name another : List ℕ) → (place_cmp (timer_place key name) (timer_place other another) ≡ Equal) ↔ ((key ≡ other) × (name ≡ another)) }
    ensures found { (key : ActorKey) (name : List ℕ) (xs : List TimerEntry) (e : TimerEntry) → entry_at (timer_place key name) xs ≡ Some e → (e.key ≡ key) × (e.name ≡ name) }
    ensures put { (e : TimerEntry) (xs : List TimerEntry) → entry_at (entry_place e) (put_entry e xs) ≡ Some e }
    ensures put_others { (e : TimerEntry) (q : List (List ℕ)) (xs : List TimerEntry) → is_at q e ≡ false → entry_at q (put_entry e xs) ≡ entry_at q xs }
    ensures removed { (p : List (List ℕ)) (xs : List TimerEntry) → Ascends xs → entry_at p (without_entry p xs) ≡ None }
    ensures removed_others { (p q : List (List ℕ)) (xs : List TimerEntry) → is_eq (place_cmp p q) ≡ false → entry_at q (without_entry p xs) ≡ entry_at q xs }
    ensures dropped { (key : ActorKey) (name : List ℕ) (xs : List TimerEntry) → entry_at (timer_place key name) (without_actor key xs) ≡ None }
    ensures dropped_others { (key other : ActorKey) (name : List ℕ) (xs : List TimerEntry) → is_eq (place_cmp (actor_place key) (actor_place other)) ≡ false → entry_at (timer_place key name) (without_actor other xs) ≡ entry_at (timer_place key name) xs }
    ensures due { (now : ℕ) (xs : List TimerEntry) (e : TimerEntry) → due_entry now xs ≡ Some e → IsFirstDue now e xs }
    ensures none_due { (now : ℕ) (xs : List TimerEntry) → due_entry now xs ≡ None → NoneWaits now xs }
{
    book.in_order();
}
