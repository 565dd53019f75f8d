// The first line of a script, which says what kind of script it is.
ghost use Rattle.std.specs.Prelude.{◌≡◌, ◌≤◌, IfOk, IfSome};
ghost use Rattle.script_text.specs.Told.{Gives, GivesValue, words_left};
ghost use Rattle.script_text.specs.Reading.{next_as};
ghost use Rattle.script_text.specs.ClusterWords.{parts_in};
ghost use Rattle.script_text.specs.ClusterLines.{parts_line_by, parts_line};

use crate::setting::{LONGEST_LINE, no_more};
use crate::words::Words;
use actor_names::read_decimal;

const MOST_PARTS: u64 = 16;

/// The next word as a number of parts.
fn next_parts<'a>(past: u64, words: Words<'a>) -> Result<(u8, Words<'a>), u64>
    ensures reads { Gives (λ parts. parts) result (next_as parts_in past (words_left words.entry)) }
    ensures range { IfOk result (λ r. (1 ≤ r.0) × (r.0 ≤ 16)) }
{
    let (word, words) = words.next().ok_or(past)?;
    match read_decimal(word.text, MOST_PARTS) {
        Some(0) | None => Err(word.column),
        Some(parts) => Ok((parts as u8, words)),
    }
}

/// The first line, by its first word.
fn parts_by<'a>(past: u64, first: &[u8], words: Words<'a>) -> Result<Option<u8>, u64>
    ensures reads { GivesValue (λ parts. parts) result (parts_line_by past first.now (words_left words.entry)) }
    ensures range { IfOk result (λ found. IfSome found (λ parts. (1 ≤ parts) × (parts ≤ 16))) }
{
    if first != b"cluster".as_slice() {
        return Ok(None);
    }
    let (parts, words) = next_parts(past, words)?;
    no_more(words)?;
    Ok(Some(parts))
}

/// How many parts a member has, from 1 to 16, if a script's first line is `cluster P`; None if it is any other line,
/// with which a solo script begins; or the column at which it is refused.
pub fn read_cluster_setting(line: &[u8]) -> Result<Option<u8>, u64>
    ensures reads { GivesValue (λ parts. parts) result (parts_line line.now) }
    ensures range { IfOk result (λ found. IfSome found (λ parts. (1 ≤ parts) × (parts ≤ 16))) }
{
    if line.len() > LONGEST_LINE {
        return Err(LONGEST_LINE as u64 + 1);
    }
    let past = line.len() as u64 + 1;
    let (first, words) = Words::new(line).next().ok_or(past)?;
    parts_by(past, first.text, words)
}
