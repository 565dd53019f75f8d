// What is registered as a timer.
ghost use Rattle.std.specs.Prelude.{◌≡◌, IfOk};

use crate::text::{TimerText, copy_of};
use actor_names::OutOfMemory;
use schedule_text::Schedule;
use std::alloc::Global;

/// A timer: when it fires, and what its callback is given. The texts are kept as they were given, and may be empty.
#[derive(Drop)]
pub struct Timer {
    /// When it fires, as read from the texts.
    pub schedule: Schedule,
    /// The method that the callback names.
    pub callback: TimerText,
    /// The JSON text that the callback is given.
    pub payload: Option<TimerText>,
    /// The text that says when it is due.
    pub due: TimerText,
    /// The text that gives its period.
    pub period: TimerText,
}

impl Timer {
    /// A copy of the timer.
    pub fn copy(&self, alloc: Global) -> Result<Timer, OutOfMemory>
        ensures { IfOk result (λ copy. copy ≡ self.now) }
    {
        let callback = self.callback.copy(alloc)?;
        let payload = copy_of(alloc, &self.payload)?;
        let due = self.due.copy(alloc)?;
        let period = self.period.copy(alloc)?;
        Ok(Timer {
            schedule: self.schedule,
            callback,
            payload,
            due,
            period,
        })
    }
}
