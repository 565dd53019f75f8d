// Which bytes a form allows, and the first fault of a text that should have one form.
ghost use Rattle.std.specs.Prelude.{◌≡◌, ◌+◌, ◌<◌, ◌≤◌, length, drop, option_map, IfSome};
ghost use Rattle.actor_names.specs.Names.{text_fault, first_bad, placed_from};

use crate::error::NameError;

/// A class of bytes.
pub trait ByteClass {
    ghost use Rattle.std.specs.Prelude.{ℕ, Bool, ◌≡◌};

    ghost test: { ℕ → Bool };

    fn allows(byte: u8) -> bool
        ensures { result ≡ test byte };
}

/// Lowercase letters, digits and `-`.
pub struct NodeBytes;

impl ByteClass for NodeBytes {
    ghost use Rattle.actor_names.specs.Names.{is_node_byte};

    ghost test = { is_node_byte };

    fn allows(byte: u8) -> bool {
        matches!(byte, b'a'..=b'z' | b'0'..=b'9' | b'-')
    }
}

/// Letters, digits, `-`, `_` and `.`.
pub struct TypeBytes;

// Each byte that a type may have is at its own index; every other index has a comma.
static TYPE_BYTES: [u8; 256] = *b"\
    ,,,,,,,,,,,,,,,,,,,,,,,,,,,,,,,,\
    ,,,,,,,,,,,,,-.,0123456789,,,,,,\
    ,ABCDEFGHIJKLMNOPQRSTUVWXYZ,,,,_\
    ,abcdefghijklmnopqrstuvwxyz,,,,,\
    ,,,,,,,,,,,,,,,,,,,,,,,,,,,,,,,,\
    ,,,,,,,,,,,,,,,,,,,,,,,,,,,,,,,,\
    ,,,,,,,,,,,,,,,,,,,,,,,,,,,,,,,,\
    ,,,,,,,,,,,,,,,,,,,,,,,,,,,,,,,,";

impl ByteClass for TypeBytes {
    ghost use Rattle.actor_names.specs.Names.{is_type_byte};

    ghost test = { is_type_byte };

    fn allows(byte: u8) -> bool {
        TYPE_BYTES[byte as usize] != b','
    }
}

/// The visible ASCII characters.
pub struct ChainBytes;

impl ByteClass for ChainBytes {
    ghost use Rattle.actor_names.specs.Names.{is_chain_byte};

    ghost test = { is_chain_byte };

    fn allows(byte: u8) -> bool {
        matches!(byte, 0x21..=0x7e)
    }
}

/// The visible ASCII characters except `/`.
pub struct IdBytes;

impl ByteClass for IdBytes {
    ghost use Rattle.actor_names.specs.Names.{is_id_byte};

    ghost test = { is_id_byte };

    fn allows(byte: u8) -> bool {
        matches!(byte, 0x21..=0x7e) && byte != b'/'
    }
}

/// The place of the first byte from `start` on that isn't in the class.
pub fn bad_place<C: ByteClass>(text: &[u8], start: usize) -> Option<usize>
    requires { start ≤ length text.now }
    ensures place { result ≡ option_map (λ n. start + n) (first_bad C.test (drop start text.now)) }
    ensures within { IfSome result (λ at. at < length text.now) }
{
    for at in start..text.len() {
        if !C::allows(text[at]) {
            return Some(at);
        }
    }
    None
}

/// The first fault of the text from `start` on, which should have 1 to `most` bytes of the class; the fault's place
/// is counted in the whole text.
pub fn fault_in<C: ByteClass>(text: &[u8], start: usize, most: usize) -> Option<NameError>
    requires { start ≤ length text.now }
    ensures { result ≡ option_map (placed_from start) (text_fault C.test most (drop start text.now)) }
{
    let n = text.len() - start;
    if n == 0 {
        return Some(NameError::Empty);
    }
    if n > most {
        return Some(NameError::TooLong { n: n as u64 });
    }
    match bad_place::<C>(text, start) {
        Some(at) => Some(NameError::BadByte { at: at as u64 }),
        None => None,
    }
}
