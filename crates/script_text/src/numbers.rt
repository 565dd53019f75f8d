// The numbers of a line's words.
ghost use Rattle.std.specs.Prelude.{◌≡◌, ◌≤◌, ℕ, true, Ok, take, length, IfSome};
ghost use Rattle.std.specs.List.{list_all};
ghost use Rattle.lists_and_limits.specs.Decimals.{is_digit, decimal_value};
ghost use Rattle.script_text.specs.Told.{Gives, words_left};
ghost use Rattle.script_text.specs.Reading.{greatest_number, next_as, number_in};

use crate::words::Words;
use actor_names::read_decimal;

const GREATEST_NUMBER: u64 = 999_999_999_999;

/// The number that the first digits of a text denote, and how many they are: all of them, or as many as surely
/// denote no number above the greatest.
#[inline]
fn leading_number(text: &[u8]) -> (u64, usize)
    ensures within { result.1 ≤ length text.now }
    ensures digits { list_all is_digit (take result.1 text.now) ≡ true }
    ensures value { result.0 ≡ decimal_value (take result.1 text.now) }
    ensures low { result.0 ≤ greatest_number }
{
    let mut number = 0;
    for (at, byte) in text.iter().enumerate() {
        if !byte.is_ascii_digit() || number > GREATEST_NUMBER / 10 {
            return (number, at);
        }
        number = number * 10 + (*byte - b'0') as u64;
    }
    (number, text.len())
}

/// The next word as a number, if it is one, read together with its end.
#[inline]
fn plain_number<'a>(words: Words<'a>) -> Option<(u64, Words<'a>)>
    ensures { IfSome result (λ r. (past : ℕ) → next_as number_in past (words_left words.entry) ≡ Ok (r.0, words_left r.1)) }
{
    let rest = words.rest?;
    let (number, end) = leading_number(rest);
    if end == 0 || (end > 1 && rest[0] == b'0') {
        return None;
    }
    let behind = Words::behind(rest, words.column, end)?;
    Some((number, behind))
}

/// The next word as a number.
#[inline]
pub(crate) fn next_number<'a>(past: u64, words: Words<'a>) -> Result<(u64, Words<'a>), u64>
    ensures { Gives (λ n. n) result (next_as number_in past (words_left words.entry)) }
{
    if let Some(found) = plain_number(words) {
        return Ok(found);
    }
    let (word, words) = words.next().ok_or(past)?;
    match read_decimal(word.text, GREATEST_NUMBER) {
        Some(number) => Ok((number, words)),
        None => Err(word.column),
    }
}
