// A space before a text, and the colon that ends it.
ghost use Rattle.std.specs.Prelude.{◌≡◌, ◌<◌, length, IfSome, length};
ghost use Rattle.actor_names.specs.Names.{default_space, space_end};

use crate::forms::Space;

/// The space of members and actors that are named without one: `default`.
pub fn default_space() -> Space
    ensures { result ≡ default_space }
{
    Space::from_bytes(b"default")
}

/// The place of the colon that ends a space: the first colon, if no `/` comes before it.
pub(crate) fn space_end(text: &[u8]) -> Option<usize>
    ensures place { result ≡ space_end text.now }
    ensures within { IfSome result (λ at. at < length text.now) }
{
    for (at, byte) in text.iter().enumerate() {
        if *byte == b':' {
            return Some(at);
        }
        if *byte == b'/' {
            return None;
        }
    }
    None
}
