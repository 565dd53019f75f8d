// How timers are kept in a search tree: in order of space, type, id and name, with the first moment below each node.
ghost use Rattle.std.specs.Prelude.{◌≡◌, refl};
ghost use Rattle.std.proofs.lemmas.Cmp.{nat_list_cmp_total, lists_total, on_total};
ghost use Rattle.timer_book.specs.Entries.{entry_place, timer_place, actor_place, place_cmp};
ghost use Rattle.timer_book.specs.Soonest.{soonest_of, first_of};
ghost use Rattle.timer_book.specs.Changes.{changed};

use crate::entry::TimerEntry;
use crate::order::{actor_cmp, timer_cmp};
use crate::soonest::{idle_moment, is_first, sooner, soonest_from};
use actor_names::{ActorKey, RecordName};
use schedule_text::Moment;
use search_tree::{Change, Element, Probe};
use std::cmp::Ordering;

impl Element for TimerEntry {
    type Summary = Option<Moment>;

    ghost cmp = { λ a b. place_cmp (entry_place a) (entry_place b) };

    ghost summary = { soonest_of };

    ghost first = { first_of };

    fn order(&self, other: &TimerEntry) -> Ordering {
        timer_cmp(self, &other.key, &other.name)
    }

    fn summary_of_none() -> Option<Moment> {
        None
    }

    #[tactic(auto, using(crate::proofs::Fires::soonest_fork))]
    fn summary_around(
        left: Option<Moment>,
        element: &TimerEntry,
        right: Option<Moment>,
    ) -> Option<Moment> {
        sooner(left, soonest_from(element, right))
    }

    fn first_side(left: Option<Moment>, element: &TimerEntry, right: Option<Moment>) -> Ordering {
        if is_first(&left, &soonest_from(element, right)) {
            Ordering::Less
        } else if is_first(&idle_moment(element), &right) {
            Ordering::Equal
        } else {
            Ordering::Greater
        }
    }

    ghost no_first = { refl };

    ghost total = { on_total entry_place (lists_total nat_list_cmp_total) };
}

/// The place of the timer with this key and name.
#[derive(Drop)]
pub(crate) struct TimerPlace<'a> {
    pub(crate) key: &'a ActorKey,
    pub(crate) name: &'a RecordName,
}

impl<'a> Probe<TimerEntry> for TimerPlace<'a> {
    ghost at = { λ p e. place_cmp (entry_place e) (timer_place p.key.now p.name.now) };

    fn compare(&self, element: &TimerEntry) -> Ordering {
        timer_cmp(element, self.key, self.name)
    }
}

/// The place of the timers of this actor.
#[derive(Drop)]
pub(crate) struct ActorPlace<'a> {
    pub(crate) key: &'a ActorKey,
}

impl<'a> Probe<TimerEntry> for ActorPlace<'a> {
    ghost at = { λ p e. place_cmp (actor_place e.key) (actor_place p.key.now) };

    fn compare(&self, element: &TimerEntry) -> Ordering {
        actor_cmp(element, self.key)
    }
}

/// A new moment, new firings left, and whether the callback runs.
#[derive(Drop)]
pub(crate) struct NextFiring {
    pub(crate) moment: Moment,
    pub(crate) left: Option<u32>,
    pub(crate) running: bool,
}

impl Change<TimerEntry> for NextFiring {
    ghost changed = { λ c e. changed e c.moment c.left c.running };

    fn change(&self, element: &mut TimerEntry) {
        element.change(self.moment, self.left, self.running);
    }
}
