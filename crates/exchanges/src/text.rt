// The text of a command.
ghost use Rattle.std.specs.Prelude.{◌≡◌, IfOk};
ghost use Rattle.frame_wire.specs.Frames.{frame_bytes};

use crate::fits::fits_frame;
use frame_wire::{Frame, write_frame};
use lists_and_limits::OutOfMemory;
use std::alloc::Global;

/// The spelling of a command's frame. `OutOfMemory` also if the command has none: a field is out of its range, or there
/// are more than 5,242,880 bytes.
pub(crate) fn command_text(alloc: Global, asked: &Frame) -> Result<Vec<u8>, OutOfMemory>
    ensures { IfOk result (λ text. text.items ≡ frame_bytes asked.now) }
{
    if fits_frame(asked).is_err() {
        return Err(OutOfMemory);
    }
    let mut text = Vec::new(alloc);
    match write_frame(asked, &mut text) {
        Ok(()) => Ok(text),
        Err(_) => Err(OutOfMemory),
    }
}
