// Texts and bytes, read from the start of some bytes and appended to others. Each is copied once, as a whole.
ghost use Rattle.std.specs.Prelude.{◌≡◌, ◌++◌, OnOk};
ghost use Rattle.std.specs.String.{string_bytes};
ghost use Rattle.wire_fields.specs.Gives.{Gives};
ghost use Rattle.wire_fields.specs.Records.{text, blob};

use crate::fault::Fault;
use crate::numbers::{long_bytes_at, middle_bytes_at, put_long_bytes, put_middle_bytes};
use lists_and_limits::OutOfMemory;
use std::alloc::Global;

/// Reads a text: UTF-8 behind its length of two bytes.
pub fn text_at(alloc: Global, rest: &mut &[u8]) -> Result<String, Fault>
    ensures { Gives (λ x. (string_bytes x, rest.new.now)) result (text.at rest.old.now) }
{
    let left = rest.len();
    let bytes = middle_bytes_at(rest)?;
    match str::from_utf8(bytes) {
        Err(_) => Err(Fault::Field { left }),
        Ok(text) => match String::from_str(alloc, text) {
            Err(_) => Err(Fault::Memory),
            Ok(text) => Ok(text),
        },
    }
}

/// Reads bytes behind their length of four bytes.
#[tactic(auto, unfolding(crate::specs::Records::blob))]
pub fn blob_at(alloc: Global, rest: &mut &[u8]) -> Result<Vec<u8>, Fault>
    ensures { Gives (λ x. (x.items, rest.new.now)) result (blob.at rest.old.now) }
{
    let bytes = long_bytes_at(rest)?;
    let bytes = Vec::from_slice(alloc, bytes)?;
    Ok(bytes)
}

/// Appends a text of at most 65,535 bytes.
#[tactic(auto, unfolding(crate::specs::Records::text))]
pub fn put_text(out: &mut Vec<u8>, one: &str) -> Result<(), OutOfMemory>
    requires { text.Fits one.now }
    ensures { OnOk result (out.new.items ≡ out.old.items ++ text.spell one.now) }
{
    put_middle_bytes(out, one.as_bytes())
}

/// Appends bytes behind their length of four bytes.
#[tactic(auto, unfolding(crate::specs::Records::blob))]
pub fn put_blob(out: &mut Vec<u8>, bytes: &[u8]) -> Result<(), OutOfMemory>
    requires { blob.Fits bytes.now }
    ensures { OnOk result (out.new.items ≡ out.old.items ++ blob.spell bytes.now) }
{
    put_long_bytes(out, bytes)
}
