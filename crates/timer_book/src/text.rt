// The texts that a timer carries.
ghost use Rattle.std.specs.Prelude.{◌≡◌, IfOk};

use lists_and_limits::{OutOfMemory, Text};
use std::alloc::Global;

/// A text that a timer carries, kept as it was given.
pub type TimerText = Text;

/// A copy of the text, if there is one.
pub(crate) fn copy_of(
    alloc: Global,
    text: &Option<TimerText>,
) -> Result<Option<TimerText>, OutOfMemory>
    ensures { IfOk result (λ copy. copy ≡ text.now) }
{
    match text {
        None => Ok(None),
        Some(text) => Ok(Some(text.copy(alloc)?)),
    }
}
