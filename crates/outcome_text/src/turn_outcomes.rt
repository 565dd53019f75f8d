// The lines that the outcomes of turns print, and the line that reports a refused line.
ghost use Rattle.std.specs.Prelude.{◌≡◌, ◌≤◌, ◌+◌, ◌++◌, length, decimal, codes};
ghost use Rattle.outcome_text.specs.Outcomes.{turn_text, bad_line_text};

use crate::line_buffer::OutcomeLine;
use world_events::TurnOutcome;

/// Sets the line to a word and the line's end.
#[inline(always)]
pub(crate) fn write_word(line: &mut OutcomeLine, word: &str)
    requires { length word.now ≤ 15 }
    ensures { line.new ≡ word.now ++ codes "\n" }
{
    line.clear();
    line.put_word("\n");
    line.put_word(word);
}

/// Sets the line to a word, a number after it and the line's end.
#[inline(always)]
pub(crate) fn write_number(line: &mut OutcomeLine, word: &str, number: u64)
    requires { length word.now ≤ 15 }
    ensures text { line.new ≡ word.now ++ decimal number ++ codes "\n" }
    ensures short { length line.new ≤ 21 + length word.now }
{
    line.clear();
    line.put_word("\n");
    line.put_number(number);
    line.put_word(word);
}

/// Sets the line to two words with a number after each, and the line's end.
#[inline(always)]
pub(crate) fn write_two(
    line: &mut OutcomeLine,
    word: &str,
    number: u64,
    second_word: &str,
    second: u64,
)
    requires first_word { length word.now ≤ 15 }
    requires second_word { length second_word.now ≤ 15 }
    ensures text { line.new ≡ word.now ++ decimal number ++ second_word.now ++ decimal second ++ codes "\n" }
    ensures short { length line.new ≤ 41 + (length word.now + length second_word.now) }
{
    line.clear();
    line.put_word("\n");
    line.put_number(second);
    line.put_word(second_word);
    line.put_number(number);
    line.put_word(word);
}

/// Sets the line to the outcome's.
pub(crate) fn write_turn_outcome(line: &mut OutcomeLine, outcome: &TurnOutcome)
    ensures { line.new ≡ turn_text outcome.now }
{
    match *outcome {
        TurnOutcome::Begun { call } => write_number(line, "begin ", call),
        TurnOutcome::Waits { call, place } => write_two(line, "wait ", call, " ", place),
        TurnOutcome::Depth { call, turns } => write_two(line, "depth ", call, " ", turns),
        TurnOutcome::QueueFull { call } => write_number(line, "queue-full ", call),
        TurnOutcome::Ended { call, next: None } => write_number(line, "end ", call),
        TurnOutcome::Ended {
            call,
            next: Some(next),
        } => write_two(line, "end ", call, " begin ", next),
        TurnOutcome::AlreadyEnded { call } => write_number(line, "already-ended ", call),
        TurnOutcome::StillWaiting { call } => write_number(line, "still-waiting ", call),
        TurnOutcome::NotThere => write_word(line, "none"),
        TurnOutcome::Held => write_word(line, "held"),
        TurnOutcome::NotActive => write_word(line, "not-active"),
        TurnOutcome::Released => write_word(line, "released"),
        TurnOutcome::NotHeld => write_word(line, "not-held"),
    }
}

/// Sets the line to the one that reports a refused line.
pub(crate) fn write_bad_line(line: &mut OutcomeLine, number: u64, column: u64)
    ensures { line.new ≡ bad_line_text number column }
{
    write_two(line, "bad line ", number, " column ", column);
}
