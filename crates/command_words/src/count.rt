// Numbers in the words.
ghost use Rattle.std.specs.Prelude.{◌≡◌, ◌≤◌, ℕ, IfSome};
ghost use Rattle.lists_and_limits.specs.Decimals.{digits_number};
ghost use Rattle.command_words.specs.Counts.{count_of, positive_up_to, number_up_to, IsUnpadded};

use actor_names::read_decimal;

/// The greatest count.
const MOST_COUNT: u64 = 1000;

/// The digits without leading zeros.
fn without_zeros(text: &[u8]) -> &[u8]
    ensures same { (most : ℕ) → digits_number most result.now ≡ digits_number most text.now }
    ensures plain { IsUnpadded result.now }
{
    let mut rest = text;
    while let [b'0', behind @ ..] = rest {
        rest = behind;
    }
    rest
}

/// The number from 1 to `most` that the digits denote; leading zeros are allowed.
pub(crate) fn read_positive(text: &[u8], most: u64) -> Option<u64>
    ensures number { result ≡ positive_up_to most text.now }
    ensures most { IfSome result (λ number. number ≤ most) }
{
    let number = read_decimal(without_zeros(text), most)?;
    if number == 0 { None } else { Some(number) }
}

/// The count from 1 to 1,000 that the digits denote; leading zeros are allowed.
pub(crate) fn read_count(text: &[u8]) -> Option<u32>
    ensures { result ≡ count_of text.now }
{
    let number = read_positive(text, MOST_COUNT)?;
    Some(number as u32)
}

/// The number up to `most` that the digits denote; leading zeros are allowed.
pub(crate) fn read_number(text: &[u8], most: u64) -> Option<u64>
    ensures { result ≡ number_up_to most text.now }
{
    if text.is_empty() {
        return None;
    }
    let digits = without_zeros(text);
    if digits.is_empty() {
        Some(0)
    } else {
        read_decimal(digits, most)
    }
}
