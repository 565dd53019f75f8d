// The two Started of a timer.
ghost use Rattle.std.specs.Prelude.{◌≡◌, IfOk};
ghost use Rattle.clock_turns.specs.Timers.{started_event};

use actor_names::OutOfMemory;
use std::alloc::Global;
use timer_book::{DueTimer, TimerEvent};

/// The two Started of a timer. Both are made before the first is given, so that nothing after it but the turn takes
/// memory.
#[derive(Drop)]
pub(crate) struct Marks {
    pub(crate) first: TimerEvent,
    pub(crate) again: TimerEvent,
}

// A Started of this timer.
fn started_event(alloc: Global, due: &DueTimer) -> Result<TimerEvent, OutOfMemory>
    ensures { IfOk result (λ event. event ≡ started_event due.now) }
{
    let key = due.key.copy(alloc)?;
    let name = due.name.copy(alloc)?;
    Ok(TimerEvent::Started {
        key,
        name,
        number: due.number,
    })
}

/// Both Started of this timer.
pub(crate) fn two_marks(alloc: Global, due: &DueTimer) -> Result<Marks, OutOfMemory>
    ensures first { IfOk result (λ marks. marks.first ≡ started_event due.now) }
    ensures again { IfOk result (λ marks. marks.again ≡ started_event due.now) }
{
    let first = started_event(alloc, due)?;
    let again = started_event(alloc, due)?;
    Ok(Marks { first, again })
}
