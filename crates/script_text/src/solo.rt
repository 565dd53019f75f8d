// What a line of a solo script says.
ghost use Rattle.std.specs.Prelude.{◌≡◌};
ghost use Rattle.world_events.specs.Solo.{event_told};
ghost use Rattle.script_text.specs.Told.{GivesValue, words_left};
ghost use Rattle.script_text.specs.LinesTold.{solo_told};
ghost use Rattle.script_text.specs.Reading.{only_as, key_in};
ghost use Rattle.script_text.specs.SoloLines.{Does, call_line, end_line, solo_line_by, solo_line};

use crate::numbers::next_number;
use crate::setting::{
    LONGEST_LINE, Setting, chain_clause, next_column, next_key, no_more, only_number,
    setting_unless,
};
use crate::words::Words;
use world_events::SoloEvent;

/// What a line of a solo script says; keys, types and chains are borrowed from it.
#[derive(Clone, Copy)]
pub enum SoloLine<'a> {
    /// An empty line or a comment.
    Blank,
    /// Something holds for the whole script.
    Sets { setting: Setting<'a> },
    /// Something happens. `column` is that of a call's number, where a wrong one is refused; 1 for the others.
    Does { column: u64, event: SoloEvent<'a> },
}

/// The line of an event.
fn does(column: u64, event: SoloEvent<'_>) -> SoloLine<'_>
    ensures { solo_told result ≡ Does column (event_told event.entry) }
{
    SoloLine::Does { column, event }
}

/// After `call`: a number, a key and what may follow them.
fn call_line<'a>(past: u64, words: Words<'a>) -> Result<SoloLine<'a>, u64>
    ensures { GivesValue solo_told result (call_line past (words_left words.entry)) }
{
    let column = next_column(past, words);
    let (call, words) = next_number(past, words)?;
    let (key, words) = next_key(past, words)?;
    let (chain, words) = chain_clause(past, words)?;
    no_more(words)?;
    Ok(does(column, SoloEvent::Call { call, key, chain }))
}

/// After `end`: the number of a call.
fn end_line<'a>(past: u64, words: Words<'a>) -> Result<SoloLine<'a>, u64>
    ensures { GivesValue solo_told result (end_line past (words_left words.entry)) }
{
    let call = only_number(past, words)?;
    Ok(does(1, SoloEvent::End { call }))
}

/// A key and nothing more.
fn only_key<'a>(past: u64, words: Words<'a>) -> Result<&'a [u8], u64>
    ensures { GivesValue (λ key. key.now) result (only_as key_in past (words_left words.entry)) }
{
    let (key, words) = next_key(past, words)?;
    no_more(words)?;
    Ok(key)
}

/// A line, by its first word.
fn line_by<'a>(late: bool, past: u64, first: &[u8], words: Words<'a>) -> Result<SoloLine<'a>, u64>
    ensures { GivesValue solo_told result (solo_line_by late past first.now (words_left words.entry)) }
{
    if first == b"call".as_slice() {
        return call_line(past, words);
    }
    if first == b"end".as_slice() {
        return end_line(past, words);
    }
    if first == b"poll".as_slice() {
        let call = only_number(past, words)?;
        return Ok(does(1, SoloEvent::Poll { call }));
    }
    if first == b"hold".as_slice() {
        let key = only_key(past, words)?;
        return Ok(does(1, SoloEvent::Hold { key }));
    }
    if first == b"release".as_slice() {
        let key = only_key(past, words)?;
        return Ok(does(1, SoloEvent::Release { key }));
    }
    let setting = setting_unless(late, past, first, words)?;
    Ok(SoloLine::Sets { setting })
}

/// What a line of a solo script says, or the column at which it is refused; `late` if an event line comes before it.
pub fn read_solo_line(line: &[u8], late: bool) -> Result<SoloLine<'_>, u64>
    ensures { GivesValue solo_told result (solo_line late line.now) }
{
    if line.len() > LONGEST_LINE {
        return Err(LONGEST_LINE as u64 + 1);
    }
    if line.is_empty() || line[0] == b'#' {
        return Ok(SoloLine::Blank);
    }
    let past = line.len() as u64 + 1;
    // The two most frequent events are recognized by their first bytes.
    match line {
        [b'c', b'a', b'l', b'l', b' ', rest @ ..] => call_line(past, Words::from_column(rest, 6)),
        [b'e', b'n', b'd', b' ', rest @ ..] => end_line(past, Words::from_column(rest, 5)),
        _ => {
            let (first, words) = Words::new(line).next().ok_or(past)?;
            line_by(late, past, first.text, words)
        }
    }
}
