// The command that runs random events of a cluster, and prints what it counts.
ghost use Rattle.std.specs.Prelude.{◌≡◌, ◌<◌, ◌++◌, [], OnOk};
ghost use Rattle.command_words.specs.Told.{told_drill};
ghost use Rattle.world_drill.specs.Drill.{counts_text};
ghost use Rattle.plain_commands.specs.Drilled.{DrillEnds, DrillsHonestly};

use crate::status::Status;
use crate::text::{push_number, push_text};
use actor_ports::{PortError, Sink};
use command_words::DrillWords;
use std::alloc::{AllocError, Global};
use world_drill::DrillCounts;

/// Appends the lines of the counts.
fn push_counts(text: &mut Vec<u8>, counts: &DrillCounts) -> Result<(), AllocError>
    ensures { OnOk result (text.new.items ≡ text.old.items ++ counts_text counts.now) }
{
    push_number(text, "steps ", counts.steps)?;
    push_number(text, "\nboots ", counts.boots)?;
    push_number(text, "\nmessages ", counts.messages)?;
    push_number(text, "\nbegun ", counts.begun)?;
    push_number(text, "\nopen ", counts.open_turns)?;
    push_number(text, "\nversion ", counts.version)?;
    push_text(text, "\n")
}

/// Runs the drill that the words ask for, and prints its counts. The text is made whole before it is written, so out
/// of memory means that nothing is written.
pub(crate) fn drill<W: Sink>(alloc: Global, words: &DrillWords, output: &mut W) -> Status
    ensures ends { DrillEnds (told_drill words.now) result (W.contents output.old) (W.contents output.new) }
    ensures honest { DrillsHonestly (told_drill words.now) }
    ensures cause { result ≡ Status.SinkFault → W.write_faults output.old < W.write_faults output.new }
{
    let Ok(counts) = world_drill::drill(alloc, words.seed, words.steps) else {
        return Status::OutOfMemory;
    };
    let mut text = Vec::new(alloc);
    if push_counts(&mut text, &counts).is_err() {
        return Status::OutOfMemory;
    }
    match output.write(text.as_slice()) {
        Ok(()) => Status::Done,
        Err(PortError::Failed) => Status::SinkFault,
        Err(PortError::OutOfMemory) => Status::OutOfMemory,
    }
}
