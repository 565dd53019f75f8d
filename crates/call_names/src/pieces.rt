// Bytes and numbers, from which texts are put together.
ghost use Rattle.std.specs.Prelude.{◌≡◌, ◌++◌, decimal, OnOk};

use itoa::Buffer;
use lists_and_limits::OutOfMemory;

pub(crate) fn add_bytes(into: &mut Vec<u8>, bytes: &[u8]) -> Result<(), OutOfMemory>
    ensures { OnOk result (into.new.items ≡ into.old.items ++ bytes.now) }
{
    into.extend_from_slice(bytes)?;
    Ok(())
}

/// Appends a number in decimal, without zeros before it.
pub fn add_decimal(into: &mut Vec<u8>, number: u64) -> Result<(), OutOfMemory>
    ensures { OnOk result (into.new.items ≡ into.old.items ++ decimal number) }
{
    let mut buffer = Buffer::new();
    add_bytes(into, buffer.format(number).as_bytes())
}
