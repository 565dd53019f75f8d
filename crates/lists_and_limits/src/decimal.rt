// Decimal numbers in texts.
ghost use Rattle.std.specs.Prelude.{◌≡◌, ◌&&◌, ◌+◌, ◌-◌, ◌*◌, Some, None, nat_le, if◌then◌else◌};
ghost use Rattle.lists_and_limits.specs.Decimals.{number_of, digits_number, is_digit};

// The number with one more digit, if the byte is a digit and the number stays at most `most`.
fn with_digit(number: u64, byte: u8, most: u64) -> Option<u64>
    ensures { result ≡ (if is_digit byte && nat_le (number * 10 + (byte - 48)) most
        then Some (number * 10 + (byte - 48)) else None) }
{
    if !byte.is_ascii_digit() || number > most / 10 {
        return None;
    }
    let shifted = number * 10;
    let digit = (byte - b'0') as u64;
    if digit > most - shifted {
        return None;
    }
    Some(shifted + digit)
}

// The number that the digits stand for, if the whole text is digits and the number is at most `most`.
fn digits_at_most(text: &[u8], most: u64) -> Option<u64>
    ensures { result ≡ digits_number most text.now }
{
    let mut number = 0;
    for byte in text {
        number = with_digit(number, *byte, most)?;
    }
    Some(number)
}

/// Reads a decimal number of at most `most`: only digits, without a sign and without leading zeros. None for
/// any other text.
pub fn read_decimal(text: &[u8], most: u64) -> Option<u64>
    ensures { result ≡ number_of most text.now }
{
    match text {
        [] | [b'0', _, ..] => None,
        _ => digits_at_most(text, most),
    }
}
