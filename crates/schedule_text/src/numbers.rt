// Numbers in texts.
ghost use Rattle.std.specs.Prelude.{◌≡◌, ◌<◌, true};
ghost use Rattle.schedule_text.specs.Numbers.{is_digit, begins_with_digit, with_digit, number_from, behind_digits, billionths_from, behind_billionths, first_weight, billionth};

/// Whether a text begins with a digit.
pub(crate) fn begins_with_digit(text: &[u8]) -> bool
    ensures { result ≡ begins_with_digit text.now }
{
    !text.is_empty() && text[0].is_ascii_digit()
}

// The number with one more digit.
fn with_digit(number: u64, byte: u8) -> u64
    requires { is_digit byte ≡ true }
    ensures { result ≡ with_digit true number byte }
{
    let digit = (byte - b'0') as u64;
    number.saturating_mul(10).saturating_add(digit)
}

/// The number at the start of a text, 0 if there is no digit, and what is behind it.
pub(crate) fn number_at(text: &[u8]) -> (u64, &[u8])
    ensures number { result.0 ≡ number_from true 0 text.now }
    ensures behind { result.1.now ≡ behind_digits text.now }
{
    let mut number = 0;
    for at in 0..text.len() {
        let byte = text[at];
        if !byte.is_ascii_digit() {
            return (number, &text[at..]);
        }
        number = with_digit(number, byte);
    }
    (number, &text[text.len()..])
}

/// The digits at the start of a text, at most nine, as billionths, and what is behind them.
pub(crate) fn billionths_at(text: &[u8]) -> (u64, &[u8])
    ensures number { result.0 ≡ billionths_from first_weight 0 text.now }
    ensures behind { result.1.now ≡ behind_billionths first_weight text.now }
    ensures bound { result.0 < billionth }
{
    let mut number = 0;
    let mut weight = 100_000_000;
    for at in 0..text.len() {
        let byte = text[at];
        if !byte.is_ascii_digit() || weight == 0 {
            return (number, &text[at..]);
        }
        number += (byte - b'0') as u64 * weight;
        weight /= 10;
    }
    (number, &text[text.len()..])
}
