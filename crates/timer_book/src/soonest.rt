// Which of some timers is to fire first.
ghost use Rattle.std.specs.Prelude.{◌≡◌};
ghost use Rattle.timer_book.specs.Soonest.{is_first, sooner, idle, moment_in};

use crate::entry::TimerEntry;
use schedule_text::Moment;

/// Whether there is a first moment, and it is not after the second one, if there is one.
pub(crate) fn is_first(first: &Option<Moment>, second: &Option<Moment>) -> bool
    ensures { result ≡ is_first first.now second.now }
{
    match first {
        None => false,
        Some(a) => match second {
            None => true,
            Some(b) => a.nanos() <= b.nanos(),
        },
    }
}

/// The earlier of two moments.
pub(crate) fn sooner(first: Option<Moment>, second: Option<Moment>) -> Option<Moment>
    ensures { result ≡ sooner first second }
{
    if is_first(&first, &second) {
        first
    } else {
        second
    }
}

/// When the timer is to fire, unless its callback runs.
pub(crate) fn idle_moment(entry: &TimerEntry) -> Option<Moment>
    ensures { result ≡ moment_in (idle entry.now) }
{
    if entry.running {
        return None;
    }
    Some(entry.moment)
}

/// The earlier of the moment of a timer, unless its callback runs, and that of those after it.
pub(crate) fn soonest_from(entry: &TimerEntry, behind: Option<Moment>) -> Option<Moment>
    ensures { result ≡ sooner (moment_in (idle entry.now)) behind }
{
    sooner(idle_moment(entry), behind)
}
