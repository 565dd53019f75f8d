// The replay of a script: its bytes are read whole, its lines run in order, and what they print is written in pieces.
ghost use Rattle.std.specs.Prelude.{◌≡◌, ◌≢◌, ◌<◌, ◌≤◌, []};
ghost use Rattle.actor_ports.specs.Port.{HasCause};
ghost use Rattle.script_text.specs.Lines.{lines_of};
ghost use Rattle.plain_commands.specs.Scripts.{Unread};
ghost use Rattle.plain_commands.specs.Replay.{run_lines, replay_of};
ghost use Rattle.plain_commands.specs.ReplayTold.{IsOf, ReadsAll, RefusesLine, EndsLines, WritesAs, PieceEnds, RunEnds, Replays};

use crate::line_end::LineEnd;
use crate::script::Script;
use crate::status::Status;
use actor_ports::{PortError, Sink, Source};
use outcome_text::Transcript;
use script_text::{count_lines, next_line};
use std::alloc::Global;

/// The greatest length of a script, in bytes.
const MOST_BYTES: usize = 67_108_864;

/// The greatest number of lines of a script.
const MOST_LINES: usize = 1_000_000;

/// How many waiting bytes of outcomes are enough to write them.
const PIECE: usize = 65_536;

/// Reads the source to its end, or one byte past the greatest length of a script.
fn read_all<I: Source>(input: &mut I, bytes: &mut Vec<u8>) -> Result<(), PortError>
    requires { bytes.old.items ≡ [] }
    ensures read { ReadsAll (I.remaining input.old) (I.remaining input.new) bytes.new.items result }
    ensures cause { HasCause (I.read_faults input.old) (I.read_faults input.new) result }
{
    while bytes.len() <= MOST_BYTES {
        let room = MOST_BYTES + 1 - bytes.len();
        let count = input.read(bytes, room)?;
        if count == 0 {
            return Ok(());
        }
    }
    Ok(())
}

/// Writes the text of a run that ended with this status.
fn write_all<W: Sink>(text: &[u8], status: Status, output: &mut W) -> Status
    requires { status ≢ Status.SinkFault }
    ensures ends { WritesAs (W.contents output.old) (W.contents output.new) text.now status result }
    ensures cause { result ≡ Status.SinkFault → W.write_faults output.old < W.write_faults output.new }
    ensures counted { W.write_faults output.old ≤ W.write_faults output.new }
{
    match output.write(text) {
        Ok(()) => status,
        Err(_) if status == Status::OutOfMemory => status,
        Err(PortError::Failed) => Status::SinkFault,
        Err(PortError::OutOfMemory) => Status::OutOfMemory,
    }
}

/// Writes the waiting lines, once they are many. Lines that were written wait no more.
fn write_piece<W: Sink>(transcript: &mut Transcript, output: &mut W) -> Status
    ensures ends { PieceEnds (W.contents output.old) (W.contents output.new) transcript.old transcript.new result }
    ensures cause { result ≡ Status.SinkFault → W.write_faults output.old < W.write_faults output.new }
    ensures counted { W.write_faults output.old ≤ W.write_faults output.new }
{
    if transcript.len() < PIECE {
        return Status::Done;
    }
    let status = write_all(transcript.as_slice(), Status::Done, output);
    if status == Status::Done {
        transcript.clear();
    }
    status
}

/// Adds the line that reports a refused line.
fn refuse(number: u64, column: u64, transcript: &mut Transcript) -> Status
    ensures { RefusesLine number column transcript.old transcript.new result }
{
    match transcript.add_bad_line(number, column) {
        Ok(()) => Status::Refused,
        Err(_) => Status::OutOfMemory,
    }
}

/// Adds the line that says why the line of this number ended the replay.
fn end_lines(end: LineEnd, number: u64, transcript: &mut Transcript) -> Status
    ensures { EndsLines end number transcript.old transcript.new result }
{
    match end {
        LineEnd::OutOfMemory => Status::OutOfMemory,
        LineEnd::Refused { column } => refuse(number, column, transcript),
    }
}

/// Runs the lines of a script up to the first that is refused, and writes what they print, a piece at a time.
fn run_script<W: Sink>(
    alloc: Global,
    script: &[u8],
    state: &mut Script,
    transcript: &mut Transcript,
    output: &mut W,
) -> Status
    requires opening { IsOf Unread state.old }
    requires empty { transcript.old ≡ [] }
    ensures ends { RunEnds (run_lines 1 Unread (lines_of script.now)) result (W.contents output.old) (W.contents output.new) }
    ensures cause { result ≡ Status.SinkFault → W.write_faults output.old < W.write_faults output.new }
{
    let mut rest = script;
    let mut number = 1u64;
    while !rest.is_empty() {
        let (line, behind) = next_line(rest);
        match state.line(alloc, line, transcript) {
            Ok(()) => {}
            Err(end) => {
                let status = end_lines(end, number, transcript);
                return write_all(transcript.as_slice(), status, output);
            }
        }
        match write_piece(transcript, output) {
            Status::Done => {}
            fault => return fault,
        }
        rest = behind;
        number += 1;
    }
    write_all(transcript.as_slice(), Status::Done, output)
}

/// Writes the line of a limit that the script exceeds.
fn write_limit<W: Sink>(text: &[u8], output: &mut W) -> Status
    ensures ends { WritesAs (W.contents output.old) (W.contents output.new) text.now Status.Limit result }
    ensures cause { result ≡ Status.SinkFault → W.write_faults output.old < W.write_faults output.new }
{
    write_all(text, Status::Limit, output)
}

/// Runs a script that is within the limit of bytes, and writes what it prints.
fn replay_bytes<W: Sink>(alloc: Global, script: &[u8], output: &mut W) -> Status
    ensures ends { RunEnds (replay_of script.now) result (W.contents output.old) (W.contents output.new) }
    ensures cause { result ≡ Status.SinkFault → W.write_faults output.old < W.write_faults output.new }
{
    if script.len() > MOST_BYTES {
        return write_limit(b"limit bytes\n", output);
    }
    if count_lines(script) > MOST_LINES {
        return write_limit(b"limit lines\n", output);
    }
    let mut state = Script::Unread;
    let mut transcript = Transcript::new(alloc);
    run_script(alloc, script, &mut state, &mut transcript, output)
}

/// Replays the script that comes from `input`, and writes what it prints to `output`.
pub(crate) fn replay<I: Source, W: Sink>(alloc: Global, input: &mut I, output: &mut W) -> Status
    ensures replays { Replays (I.remaining input.old) (I.remaining input.new) result (W.contents output.old) (W.contents output.new) }
    ensures source { result ≡ Status.SourceFault → I.read_faults input.old < I.read_faults input.new }
    ensures sink { result ≡ Status.SinkFault → W.write_faults output.old < W.write_faults output.new }
{
    let mut script = Vec::new(alloc);
    match read_all(input, &mut script) {
        Ok(()) => replay_bytes(alloc, script.as_slice(), output),
        Err(PortError::Failed) => Status::SourceFault,
        Err(PortError::OutOfMemory) => Status::OutOfMemory,
    }
}
