// The lines of a script and the words of a line, borrowed from its bytes.
ghost use Rattle.std.specs.Prelude.{◌≡◌, ◌==◌, ◌<◌, ◌≤◌, ◌∷◌, length, count_by, IfSome, IfNone};
ghost use Rattle.script_text.specs.Lines.{IsFirstByte, LacksByte, lines_of};

use memchr::memchr;

const LINE_FEED: u8 = 10;

/// How many bytes are counted at a time: few enough for a byte to hold the count, enough to compare 16 at once.
const PIECE: usize = 240;

/// The place, from 0, of the first such byte.
pub(crate) fn find_byte(text: &[u8], byte: u8) -> Option<usize>
    ensures found { IfSome result (λ i. IsFirstByte byte text.now i) }
    ensures missing { IfNone result (LacksByte byte text.now) }
{
    memchr(byte, text)
}

/// The first line of a text that isn't empty, and what follows its line feed.
pub fn next_line(text: &[u8]) -> (&[u8], &[u8])
    requires { 0 < length text.now }
    ensures lines { lines_of text.now ≡ result.0.now ∷ lines_of result.1.now }
    ensures shorter { length result.1.now < length text.now }
{
    match find_byte(text, LINE_FEED) {
        Some(end) => (&text[..end], &text[end + 1..]),
        None => (text, &text[text.len()..]),
    }
}

/// How many line feeds a piece of a text has.
fn count_in_piece(piece: &[u8]) -> u8
    requires { length piece.now ≤ 240 }
    ensures { result ≡ count_by (λ b. b == 10) piece.now }
{
    let mut ends = 0;
    for byte in piece {
        if *byte == LINE_FEED {
            ends += 1;
        }
    }
    ends
}

/// How many line feeds a text has.
fn count_ends(text: &[u8]) -> usize
    ensures count { result ≡ count_by (λ b. b == 10) text.now }
    ensures within { result ≤ length text.now }
{
    let mut ends = 0;
    let mut rest = text;
    while rest.len() > PIECE {
        let (piece, behind) = rest.split_at(PIECE);
        ends += count_in_piece(piece) as usize;
        rest = behind;
    }
    ends + count_in_piece(rest) as usize
}

/// How many lines a text has: its line feeds, and one more if anything follows the last of them.
#[tactic(auto, using(crate::proofs::CountLemmas::lines_closed, crate::proofs::CountLemmas::lines_unclosed))]
pub fn count_lines(text: &[u8]) -> usize
    ensures { result ≡ length (lines_of text.now) }
{
    if text.is_empty() {
        return 0;
    }
    let ends = count_ends(text);
    if text[text.len() - 1] == LINE_FEED {
        ends
    } else {
        ends + 1
    }
}
