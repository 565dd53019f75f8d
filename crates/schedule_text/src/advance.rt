// What follows a firing.
ghost use Rattle.std.specs.Prelude.{◌≡◌, ◌<◌, ◌-◌, false, option_map};
ghost use Rattle.schedule_text.specs.Firing.{add_period, following, next_firing, next_at, is_zero, is_last, is_before_end};

use crate::calendar::months_on;
use crate::moment::Moment;

/// The time from one firing to the next: calendar months, then nanoseconds.
#[derive(Clone, Copy, Debug)]
pub struct Period {
    /// Calendar months; a day that the month lacks becomes its last day.
    pub months: u32,
    /// Nanoseconds, added after the months.
    pub nanos: u64,
}

/// When something fires.
#[derive(Clone, Copy, Debug)]
pub struct Schedule {
    /// The first firing; `None` if there is none at all.
    pub first: Option<Moment>,
    /// The time from one firing to the next; without it there is only one firing.
    pub period: Option<Period>,
    /// How many firings are still allowed; without it, any number.
    pub left: Option<u32>,
    /// The moment from which on nothing fires.
    pub end: Option<Moment>,
}

/// What follows a firing.
#[derive(Clone, Copy, Debug)]
pub enum Next {
    /// The next firing, and how many firings are allowed from this one on.
    At { moment: Moment, left: Option<u32> },
    /// There is none: there is no period, the last allowed firing was this one, or the end is reached.
    Done,
    /// The next firing would be past the last moment, and there is no end before that.
    OutOfRange,
}

/// The moment one period later: the months are added to the UTC date, where a day that the month lacks becomes its
/// last day, and then the nanoseconds are added. `None` if that is past the last moment.
#[tactic(auto, unfolding(crate::specs::Firing::add_period, crate::specs::Firing::sum_of))]
pub fn add_period(moment: Moment, period: &Period) -> Option<Moment>
    ensures { result ≡ add_period moment period.now }
{
    let on = if period.months == 0 {
        moment
    } else {
        months_on(moment, period.months)?
    };
    Moment::from_nanos(on.nanos() + period.nanos as u128)
}

// The first firing after now for a period without months: all missed ones are passed in one step.
fn jump(moment: Moment, period: &Period, now: Moment) -> Option<Moment>
    requires months { period.now.months ≡ 0 }
    requires nanos { 0 < period.now.nanos }
    ensures { result ≡ following period.now moment now }
{
    let start = moment.nanos();
    let nanos = period.nanos as u128;
    let gap = now.nanos().saturating_sub(start);
    let passed = gap % nanos;
    Moment::from_nanos(start + (gap - passed + nanos))
}

// The same for a period with months: each moment is found from the one before, since a day once cut stays cut.
fn walk(moment: Moment, period: &Period, now: Moment) -> Option<Moment>
    ensures { result ≡ following period.now moment now }
{
    let until = now.nanos();
    let mut at = moment;
    let mut most = until.saturating_sub(moment.nanos()) + 1;
    while most > 0 {
        let next = add_period(at, period)?;
        if next.nanos() > until {
            return Some(next);
        }
        at = next;
        most -= 1;
    }
    None
}

// The first moment after now among those that follow.
fn following(moment: Moment, period: &Period, now: Moment) -> Option<Moment>
    requires { is_zero period.now ≡ false }
    ensures { result ≡ following period.now moment now }
{
    if period.months == 0 {
        jump(moment, period, now)
    } else {
        walk(moment, period, now)
    }
}

// Whether at most one firing is left.
fn is_last(left: Option<u32>) -> bool
    ensures { result ≡ is_last left }
{
    match left {
        None => false,
        Some(left) => left <= 1,
    }
}

// Whether a moment is before the end, if there is one.
fn is_before_end(moment: Moment, end: Option<Moment>) -> bool
    ensures { result ≡ is_before_end moment end }
{
    match end {
        None => true,
        Some(end) => moment.nanos() < end.nanos(),
    }
}

// The number of firings left, less one.
fn one_fewer(left: Option<u32>) -> Option<u32>
    ensures { result ≡ option_map (λ n. n - 1) left }
{
    match left {
        None => None,
        Some(left) => Some(left.saturating_sub(1)),
    }
}

// The answer for the moment that follows, if there is one.
fn next_at(end: Option<Moment>, left: Option<u32>, next: Option<Moment>) -> Next
    ensures { result ≡ next_at end left next }
{
    match next {
        None => match end {
            None => Next::OutOfRange,
            Some(_) => Next::Done,
        },
        Some(moment) => {
            if is_before_end(moment, end) {
                let left = one_fewer(left);
                Next::At { moment, left }
            } else {
                Next::Done
            }
        }
    }
}

impl Schedule {
    /// An equal schedule.
    pub fn copy(&self) -> Schedule
        ensures { result ≡ self.now }
    {
        *self
    }

    /// What follows when `moment` fires at `now`: the first moment after `now` among those that follow `moment` by one
    /// period each. One firing fewer is left then, however many moments were missed. It takes no memory.
    pub fn advance(&self, moment: Moment, now: Moment) -> Next
        ensures { result ≡ next_firing self.now moment now }
    {
        match self.period {
            None => Next::Done,
            Some(period) => {
                if period.months == 0 && period.nanos == 0 {
                    return Next::Done;
                }
                if is_last(self.left) {
                    return Next::Done;
                }
                let next = following(moment, &period, now);
                next_at(self.end, self.left, next)
            }
        }
    }
}
