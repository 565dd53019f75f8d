// One timer of a book.
ghost use Rattle.std.specs.Prelude.{◌≡◌, ◌<◌, IfOk};
ghost use Rattle.schedule_text.specs.Range.{end_of_time};
ghost use Rattle.timer_book.specs.Entries.{due_of, next_of, new_entry};
ghost use Rattle.timer_book.specs.Changes.{changed};

use crate::timer::Timer;
use actor_names::{ActorKey, OutOfMemory, RecordName};
use schedule_text::{Moment, Next, Schedule};
use std::alloc::Global;

/// A registered timer, as a book keeps it.
#[derive(Drop)]
pub struct TimerEntry {
    /// The actor.
    pub key: ActorKey,
    /// The name among the actor's timers.
    pub name: RecordName,
    /// The number of the registration.
    pub number: u64,
    /// When it fires next.
    pub moment: Moment,
    /// How many firings are still allowed, the next one included; `None` allows any number.
    pub left: Option<u32>,
    /// Whether its callback runs.
    pub running: bool,
    /// What was registered.
    pub timer: Timer,
}

/// A timer that is due.
#[derive(Drop)]
pub struct DueTimer {
    /// The actor.
    pub key: ActorKey,
    /// The name among the actor's timers.
    pub name: RecordName,
    /// The number of the registration, by which `started` and `finished` identify it.
    pub number: u64,
    /// When it was to fire.
    pub moment: Moment,
    /// What was registered.
    pub timer: Timer,
}

impl TimerEntry {
    /// Sets the moment, the firings left and whether the callback runs.
    pub(crate) fn change(&mut self, moment: Moment, left: Option<u32>, running: bool)
        ensures { self.new ≡ changed self.old moment left running }
    {
        self.moment = moment;
        self.left = left;
        self.running = running;
    }

    /// What follows a firing whose callback ended at this moment.
    pub(crate) fn next(&self, ended: Moment) -> Next
        ensures { result ≡ next_of self.now ended }
    {
        let schedule = Schedule {
            first: self.timer.schedule.first,
            period: self.timer.schedule.period,
            left: self.left,
            end: self.timer.schedule.end,
        };
        schedule.advance(ended, ended)
    }

    /// What is reported of it when it is due.
    pub(crate) fn due(&self, alloc: Global) -> Result<DueTimer, OutOfMemory>
        ensures { IfOk result (λ due. due ≡ due_of self.now) }
    {
        let key = self.key.copy(alloc)?;
        let name = self.name.copy(alloc)?;
        let timer = self.timer.copy(alloc)?;
        Ok(DueTimer {
            key,
            name,
            number: self.number,
            moment: self.moment,
            timer,
        })
    }
}

/// A new timer with this number, which fires first at `first`.
pub(crate) fn new_entry(
    alloc: Global,
    key: &ActorKey,
    name: &RecordName,
    number: u64,
    first: Moment,
    timer: Timer,
) -> Result<TimerEntry, OutOfMemory>
    ensures { IfOk result (λ entry. entry ≡ new_entry key.now name.now number first timer) }
{
    let key = key.copy(alloc)?;
    let name = name.copy(alloc)?;
    Ok(TimerEntry {
        key,
        name,
        number,
        moment: first,
        left: timer.schedule.left,
        running: false,
        timer,
    })
}
