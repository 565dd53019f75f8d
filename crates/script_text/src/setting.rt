// The lines that set what holds for a whole script, and what lines of both kinds have in common.
ghost use Rattle.std.specs.Prelude.{◌≡◌, None, IfOk, option_copied};
ghost use Rattle.std.specs.Option.{ForSome};
ghost use Rattle.actor_names.specs.Names.{actor_type_fault, local_key_fault, chain_id_fault};
ghost use Rattle.script_text.specs.Told.{Gives, GivesValue, Ends, words_left};
ghost use Rattle.script_text.specs.LinesTold.{setting_told, SettingIsSound};
ghost use Rattle.script_text.specs.Reading.{next_as, next_column, only_as, number_in, depth_in, key_in, kind_in, chain_in, chain_clause, reentrant_line, setting_by, setting_unless};

use crate::depth::Depth;
use crate::numbers::next_number;
use crate::words::Words;
use actor_names::{actor_type_fault, chain_id_fault, local_key_fault, read_decimal};

const GREATEST_DEPTH: u64 = 1024;

/// The greatest length of a script's line, in bytes.
pub(crate) const LONGEST_LINE: usize = 4096;

/// What a setting line says; the type is borrowed from it.
#[derive(Clone, Copy)]
pub enum Setting<'a> {
    /// A type has reentrancy on, with this depth; the column of the type, where a second depth for it is refused.
    Reentrant {
        column: u64,
        kind: &'a [u8],
        depth: Depth,
    },
    /// The idle time of all types, in milliseconds.
    Idle {
        ms: u64,
    },
    /// The drain time of all types, in milliseconds.
    Drain {
        ms: u64,
    },
}

/// The column of the next word, or one past the line's end.
#[inline]
#[tactic(auto, using(crate::proofs::LineLemmas::first_word_column))]
pub(crate) fn next_column(past: u64, words: Words<'_>) -> u64
    ensures { result ≡ next_column past (words_left words.entry) }
{
    match words.rest {
        Some(_) => words.column,
        None => past,
    }
}

/// The next word as a depth.
fn next_depth<'a>(past: u64, words: Words<'a>) -> Result<(Depth, Words<'a>), u64>
    ensures { Gives (λ depth. depth.value) result (next_as depth_in past (words_left words.entry)) }
{
    let (word, words) = words.next().ok_or(past)?;
    match read_decimal(word.text, GREATEST_DEPTH) {
        Some(0) | None => Err(word.column),
        Some(depth) => Ok((
            Depth {
                value: depth as u32,
            },
            words,
        )),
    }
}

/// The next word as a key, which is written without its space.
pub(crate) fn next_key<'a>(past: u64, words: Words<'a>) -> Result<(&'a [u8], Words<'a>), u64>
    ensures sound { IfOk result (λ r. local_key_fault r.0.now ≡ None) }
    ensures reads { Gives (λ key. key.now) result (next_as key_in past (words_left words.entry)) }
{
    let (word, words) = words.next().ok_or(past)?;
    match local_key_fault(word.text) {
        None => Ok((word.text, words)),
        Some(_) => Err(word.column),
    }
}

/// The next word as an actor type.
fn next_kind<'a>(past: u64, words: Words<'a>) -> Result<(&'a [u8], Words<'a>), u64>
    ensures sound { IfOk result (λ r. actor_type_fault r.0.now ≡ None) }
    ensures reads { Gives (λ kind. kind.now) result (next_as kind_in past (words_left words.entry)) }
{
    let (word, words) = words.next().ok_or(past)?;
    match actor_type_fault(word.text) {
        None => Ok((word.text, words)),
        Some(_) => Err(word.column),
    }
}

/// The next word as a chain's identifier.
fn next_chain<'a>(past: u64, words: Words<'a>) -> Result<(&'a [u8], Words<'a>), u64>
    ensures sound { IfOk result (λ r. chain_id_fault r.0.now ≡ None) }
    ensures reads { Gives (λ chain. chain.now) result (next_as chain_in past (words_left words.entry)) }
{
    let (word, words) = words.next().ok_or(past)?;
    match chain_id_fault(word.text) {
        None => Ok((word.text, words)),
        Some(_) => Err(word.column),
    }
}

/// Nothing more may follow in the line.
pub(crate) fn no_more(words: Words<'_>) -> Result<(), u64>
    ensures { Ends result (words_left words.entry) }
{
    match words.next() {
        None => Ok(()),
        Some((word, _)) => Err(word.column),
    }
}

/// Nothing, or `chain` and a chain's identifier.
pub(crate) fn chain_clause<'a>(
    past: u64,
    words: Words<'a>,
) -> Result<(Option<&'a [u8]>, Words<'a>), u64>
    ensures sound { IfOk result (λ r. ForSome r.0 (λ chain. chain_id_fault chain.now ≡ None)) }
    ensures reads { Gives (λ chain. option_copied chain) result (chain_clause past (words_left words.entry)) }
{
    match words.next() {
        None => Ok((None, words)),
        Some((word, words)) => {
            let [b'c', b'h', b'a', b'i', b'n'] = word.text else {
                return Err(word.column);
            };
            let (chain, words) = next_chain(past, words)?;
            Ok((Some(chain), words))
        }
    }
}

/// A number and nothing more.
pub(crate) fn only_number(past: u64, words: Words<'_>) -> Result<u64, u64>
    ensures { GivesValue (λ n. n) result (only_as number_in past (words_left words.entry)) }
{
    let (number, words) = next_number(past, words)?;
    no_more(words)?;
    Ok(number)
}

/// After `reentrant`: a type and a depth.
fn reentrant_line<'a>(past: u64, words: Words<'a>) -> Result<Setting<'a>, u64>
    ensures sound { IfOk result (λ setting. SettingIsSound setting) }
    ensures reads { GivesValue setting_told result (reentrant_line past (words_left words.entry)) }
{
    let column = next_column(past, words);
    let (kind, words) = next_kind(past, words)?;
    let (depth, words) = next_depth(past, words)?;
    no_more(words)?;
    Ok(Setting::Reentrant {
        column,
        kind,
        depth,
    })
}

/// A setting, by its first word.
fn setting_by<'a>(past: u64, first: &[u8], words: Words<'a>) -> Result<Setting<'a>, u64>
    ensures sound { IfOk result (λ setting. SettingIsSound setting) }
    ensures reads { GivesValue setting_told result (setting_by past first.now (words_left words.entry)) }
{
    if first == b"reentrant".as_slice() {
        return reentrant_line(past, words);
    }
    if first == b"idle".as_slice() {
        let ms = only_number(past, words)?;
        return Ok(Setting::Idle { ms });
    }
    if first == b"drain".as_slice() {
        let ms = only_number(past, words)?;
        return Ok(Setting::Drain { ms });
    }
    Err(1)
}

/// A setting, by its first word, if no event line comes before it.
pub(crate) fn setting_unless<'a>(
    late: bool,
    past: u64,
    first: &[u8],
    words: Words<'a>,
) -> Result<Setting<'a>, u64>
    ensures sound { IfOk result (λ setting. SettingIsSound setting) }
    ensures reads { GivesValue setting_told result (setting_unless late past first.now (words_left words.entry)) }
{
    if late {
        return Err(1);
    }
    setting_by(past, first, words)
}
