// Numbers that are pieces of a text.
ghost use Rattle.std.specs.Prelude.{◌≡◌, ◌+◌, ◌<◌, ◌≤◌, drop, length, option_map, take_while};
ghost use Rattle.actor_names.specs.Names.{placed_from};
ghost use Rattle.lists_and_limits.specs.Decimals.{is_digit};
ghost use Rattle.actor_names.specs.Numerals.{numeral_of, number_fault};

use crate::error::NameError;
use lists_and_limits::read_decimal;

// Where the digits that begin at `start` end.
fn digits_end(text: &[u8], start: usize) -> usize
    requires { start ≤ length text.now }
    ensures end { result ≡ start + length (take_while is_digit (drop start text.now)) }
    ensures within { result ≤ length text.now }
{
    for at in start..text.len() {
        if !text[at].is_ascii_digit() {
            return at;
        }
    }
    text.len()
}

/// Where the number that begins at `start` ends.
pub fn numeral_end(text: &[u8], start: usize) -> usize
    requires { start ≤ length text.now }
    ensures end { result ≡ start + length (numeral_of (drop start text.now)) }
    ensures within { result ≤ length text.now }
{
    if start < text.len() && text[start] == b'0' {
        start + 1
    } else {
        digits_end(text, start)
    }
}

/// The fault of the text from `start` on, which should be a number from `low` to `most`; the fault's place is counted
/// in the whole text.
pub fn number_fault(text: &[u8], start: usize, low: u64, most: u64) -> Option<NameError>
    requires { start ≤ length text.now }
    ensures { result ≡ option_map (placed_from start) (number_fault low most (drop start text.now)) }
{
    let end = numeral_end(text, start);
    match read_decimal(&text[start..end], most) {
        None => Some(NameError::BadByte { at: start as u64 }),
        Some(number) => {
            if number < low {
                Some(NameError::BadByte { at: start as u64 })
            } else if end < text.len() {
                Some(NameError::BadByte { at: end as u64 })
            } else {
                None
            }
        }
    }
}
