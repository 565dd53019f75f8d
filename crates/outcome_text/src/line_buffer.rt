// A line that is written from its end to its start.
ghost use Rattle.std.specs.Prelude.{◌≡◌, ◌≤◌, ◌+◌, ◌++◌, [], length, decimal};

use itoa::write_digits;
use std::marker::Model;

/// The greatest length of a line, in bytes.
const MOST_BYTES: usize = 80;

/// A text of at most 80 bytes, to which text is added at the front. So a number's digits, of which the last is known
/// first, are written where they stay.
#[derive(Drop)]
pub(crate) struct OutcomeLine {
    bytes: [u8; MOST_BYTES],
    start: usize,
}

impl Model for OutcomeLine {
    ghost use Rattle.std.specs.Prelude.{◌≤◌, List, ℕ, drop};

    ghost Value = { List ℕ };

    ghost view = { λ a. drop a.start a.bytes };

    ghost invariant = { λ a. a.start ≤ 80 };
}

impl OutcomeLine {
    /// An empty text.
    pub(crate) fn new() -> OutcomeLine
        ensures { result ≡ [] }
    {
        OutcomeLine {
            bytes: [0; MOST_BYTES],
            start: MOST_BYTES,
        }
    }

    /// The bytes.
    pub(crate) fn as_slice(&self) -> &[u8]
        ensures { result.now ≡ self.now }
    {
        &self.bytes[self.start..]
    }

    /// Removes all bytes.
    pub(crate) fn clear(&mut self)
        ensures { self.new ≡ [] }
    {
        self.start = MOST_BYTES;
    }

    /// Puts a word before the bytes.
    #[inline(always)]
    pub(crate) fn put_word(&mut self, word: &str)
        requires { length word.now + length self.old ≤ 80 }
        ensures text { self.new ≡ word.now ++ self.old }
        ensures longer { length self.new ≡ length word.now + length self.old }
    {
        let start = self.start - word.len();
        self.bytes[start..self.start].copy_from_slice(word.as_bytes());
        self.start = start;
    }

    /// Puts a number before the bytes.
    #[inline]
    pub(crate) fn put_number(&mut self, number: u64)
        requires { 20 + length self.old ≤ 80 }
        ensures text { self.new ≡ decimal number ++ self.old }
        ensures short { length self.new ≤ 20 + length self.old }
    {
        self.start = write_digits(number, &mut self.bytes, self.start);
    }
}
