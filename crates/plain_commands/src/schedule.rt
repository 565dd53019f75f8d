// The command that prints the moments of a schedule.
ghost use Rattle.std.specs.Prelude.{◌≡◌, ◌≢◌, ◌<◌, ◌∷◌, ◌++◌, [], ℕ, suc, OnOk, IfErr};
ghost use Rattle.schedule_text.specs.declared.error.ScheduleError.TheVariants as fault;
ghost use Rattle.schedule_text.specs.Firing.{firings_from, firings_by, firing_list};
ghost use Rattle.command_words.specs.Told.{told_schedule};
ghost use Rattle.plain_commands.specs.Schedule.{fault_text, refused_line, moment_line, moment_lines, read_asking, schedule_of, Makes, ScheduleEnds};

use crate::status::Status;
use crate::text::{push_number, push_text};
use actor_ports::{PortError, Sink};
use command_words::ScheduleWords;
use schedule_text::{
    Moment, Next, Schedule, ScheduleError, print_moment, read_moment, read_schedule,
};
use std::alloc::{AllocError, Global};

/// Appends a fault's name.
fn push_fault(text: &mut Vec<u8>, fault: ScheduleError) -> Result<(), AllocError>
    ensures { OnOk result (text.new.items ≡ text.old.items ++ fault_text fault) }
{
    match fault {
        ScheduleError::BadMoment { at } => push_number(text, "bad-moment ", at),
        ScheduleError::BadDuration { at } => push_number(text, "bad-duration ", at),
        ScheduleError::Negative => push_text(text, "negative"),
        ScheduleError::ZeroRepeats => push_text(text, "zero-repeats"),
        ScheduleError::OutOfRange => push_text(text, "out-of-range"),
        ScheduleError::OutOfMemory => push_text(text, "out-of-memory"),
    }
}

/// Appends the line that reports a refused text.
fn push_refusal(text: &mut Vec<u8>, fault: ScheduleError) -> Result<(), AllocError>
    ensures { OnOk result (text.new.items ≡ text.old.items ++ refused_line fault) }
{
    push_text(text, "refused ")?;
    push_fault(text, fault)?;
    push_text(text, "\n")
}

/// Appends the line of a moment.
fn push_moment(alloc: Global, text: &mut Vec<u8>, moment: Moment) -> Result<(), ScheduleError>
    ensures added { OnOk result (text.new.items ≡ text.old.items ++ moment_line moment) }
    ensures memory { IfErr result (λ e. e ≡ fault.OutOfMemory) }
{
    let printed = print_moment(alloc, moment)?;
    push_text(text, printed.as_str())?;
    push_text(text, "\n")?;
    Ok(())
}

/// The rest of a schedule after `moment` fires on time, and the next moment.
fn after(schedule: &Schedule, moment: Moment) -> (Schedule, Option<Moment>)
    ensures { (most : ℕ) → firings_from (suc most) schedule.now moment ≡ moment ∷ firings_by most result.0 result.1 }
{
    match schedule.advance(moment, moment) {
        Next::At { moment, left } => {
            let mut rest = schedule.copy();
            rest.left = left;
            (rest, Some(moment))
        }
        Next::Done => (schedule.copy(), None),
        Next::OutOfRange => (schedule.copy(), None),
    }
}

/// Appends the moments of a schedule, at most `count` of them.
fn push_firings(
    alloc: Global,
    text: &mut Vec<u8>,
    schedule: &Schedule,
    count: u32,
) -> Result<(), ScheduleError>
    ensures added { OnOk result (text.new.items ≡ text.old.items ++ moment_lines (firing_list count schedule.now)) }
    ensures memory { IfErr result (λ e. e ≡ fault.OutOfMemory) }
{
    let mut rest = schedule.copy();
    let mut next = schedule.first;
    for _ in 0..count {
        let Some(moment) = next else {
            return Ok(());
        };
        push_moment(alloc, text, moment)?;
        let (behind, following) = after(&rest, moment);
        rest = behind;
        next = following;
    }
    Ok(())
}

/// The schedule of the texts; the moment `now` is read first.
fn read(words: &ScheduleWords) -> Result<Schedule, ScheduleError>
    ensures { result ≡ read_asking (told_schedule words.entry.now) }
{
    let now = read_moment(words.now)?;
    read_schedule(words.due, words.period, words.ttl, now)
}

/// Makes what the command prints, and returns the status with which it ends.
fn make(alloc: Global, words: &ScheduleWords, text: &mut Vec<u8>) -> Status
    requires { text.old.items ≡ [] }
    ensures { Makes (schedule_of (told_schedule words.entry.now)) result text.new.items }
{
    match read(words) {
        Ok(schedule) => match push_firings(alloc, text, &schedule, words.count) {
            Ok(()) => Status::Done,
            Err(_) => Status::OutOfMemory,
        },
        Err(fault) => match push_refusal(text, fault) {
            Ok(()) => Status::Refused,
            Err(_) => Status::OutOfMemory,
        },
    }
}

/// Prints the moments of the schedule that the words ask for, one to a line, or the line of the first fault. The
/// text is made whole before it is written, so out of memory means that nothing is written.
pub(crate) fn schedule<W: Sink>(alloc: Global, words: &ScheduleWords, output: &mut W) -> Status
    ensures ends { ScheduleEnds (schedule_of (told_schedule words.entry.now)) result (W.contents output.old) (W.contents output.new) }
    ensures cause { result ≡ Status.SinkFault → W.write_faults output.old < W.write_faults output.new }
{
    let mut text = Vec::new(alloc);
    let status = make(alloc, words, &mut text);
    if status == Status::OutOfMemory {
        return status;
    }
    match output.write(text.as_slice()) {
        Ok(()) => status,
        Err(PortError::Failed) => Status::SinkFault,
        Err(PortError::OutOfMemory) => Status::OutOfMemory,
    }
}
