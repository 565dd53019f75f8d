// The words of a line, one after another.
ghost use Rattle.std.specs.Prelude.{◌+◌, ◌≤◌, length, IfSome, IfNone};
ghost use Rattle.std.specs.Option.{ForSome};
ghost use Rattle.script_text.specs.Lines.{IsFirstByte, LacksByte};

const SPACE: u8 = b' ';

/// The place, from 0, of the first space. Words are short, so the bytes are looked at one by one.
#[inline]
fn word_end(text: &[u8]) -> Option<usize>
    ensures found { IfSome result (λ i. IsFirstByte 32 text.now i) }
    ensures missing { IfNone result (LacksByte 32 text.now) }
{
    for (at, byte) in text.iter().enumerate() {
        if *byte == SPACE {
            return Some(at);
        }
    }
    None
}

/// A word of a line and its column, from 1 and in bytes.
#[derive(Clone, Copy)]
pub(crate) struct Token<'a> {
    pub(crate) text: &'a [u8],
    pub(crate) column: u64,
}

/// The remaining words of a line of at most 4,096 bytes: those of what follows the last space that was passed, and
/// none after the line's last word.
#[derive(Clone, Copy)]
pub(crate) struct Words<'a> {
    pub(crate) rest: Option<&'a [u8]>,
    pub(crate) column: u64,
    ghost short: { ForSome rest (λ r. column + length r.now ≤ 4097) },
}

impl<'a> Words<'a> {
    ghost use Rattle.std.specs.Prelude.{◌≡◌, ◌+◌, ◌≤◌, ◌∷◌, [], length, take, IfSome, MatchOption};
    ghost use Rattle.script_text.specs.Lines.{words_from, LacksByte};
    ghost use Rattle.script_text.specs.Told.{words_left, word_told};

    /// The words of a whole line.
    pub(crate) fn new(line: &'a [u8]) -> Words<'a>
        requires { length line.now ≤ 4096 }
        ensures { words_left result ≡ words_from 1 line.now }
    {
        Words {
            rest: Some(line),
            column: 1,
        }
    }

    /// The words of the rest of a line, which begins at this column.
    pub(crate) fn from_column(rest: &'a [u8], column: u64) -> Words<'a>
        requires { column + length rest.now ≤ 4097 }
        ensures { words_left result ≡ words_from column rest.now }
    {
        Words {
            rest: Some(rest),
            column,
        }
    }

    /// The words after a first one that ends at this place of `rest`; none if no word ends there.
    #[inline]
    pub(crate) fn behind(rest: &'a [u8], column: u64, end: usize) -> Option<Words<'a>>
        requires within { end ≤ length rest.now }
        requires short { column + length rest.now ≤ 4097 }
        ensures { LacksByte 32 (take end rest.now) → IfSome result (λ words. words_from column rest.now ≡ record { column = column; text = take end rest.now } ∷ words_left words) }
    {
        if end == rest.len() {
            return Some(Words { rest: None, column });
        }
        if rest[end] != SPACE {
            return None;
        }
        Some(Words {
            rest: Some(&rest[end + 1..]),
            column: column + end as u64 + 1,
        })
    }

    /// The next word and the words after it.
    pub(crate) fn next(self) -> Option<(Token<'a>, Words<'a>)>
        ensures { MatchOption result (words_left self.entry ≡ [])
            (λ next. words_left self.entry ≡ word_told next.0 ∷ words_left next.1) }
    {
        let rest = self.rest?;
        match word_end(rest) {
            Some(end) => {
                let token = Token {
                    text: &rest[..end],
                    column: self.column,
                };
                let behind = Words {
                    rest: Some(&rest[end + 1..]),
                    column: self.column + end as u64 + 1,
                };
                Some((token, behind))
            }
            None => {
                let token = Token {
                    text: rest,
                    column: self.column,
                };
                let behind = Words {
                    rest: None,
                    column: self.column,
                };
                Some((token, behind))
            }
        }
    }
}
