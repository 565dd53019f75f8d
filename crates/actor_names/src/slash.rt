// A text cut at its first `/`.
ghost use Rattle.std.specs.Prelude.{◌≡◌, ◌<◌, ◌≤◌, Some, length};
ghost use Rattle.actor_names.specs.Names.{before_slash, after_slash};

/// The place of the first `/`, or the text's length if it has none.
pub fn slash_place(text: &[u8]) -> usize
    ensures place { result ≡ length (before_slash text.now) }
    ensures within { result ≤ length text.now }
{
    for (at, byte) in text.iter().enumerate() {
        if *byte == b'/' {
            return at;
        }
    }
    text.len()
}

/// The bytes before the first `/`, or the whole text if it has none.
pub fn first_piece(text: &[u8]) -> &[u8]
    ensures { result.now ≡ before_slash text.now }
{
    let end = slash_place(text);
    &text[..end]
}

/// The bytes after the first `/`.
pub fn second_piece(text: &[u8]) -> &[u8]
    requires { length (before_slash text.now) < length text.now }
    ensures { Some result.now ≡ after_slash text.now }
{
    let end = slash_place(text);
    &text[end + 1..]
}
