// Texts that are put together from pieces.
ghost use Rattle.std.specs.Prelude.{◌≡◌, ◌++◌, decimal, IfOk, OnOk};
ghost use Rattle.std.specs.String.{string_bytes};

use itoa::Buffer;
use lists_and_limits::OutOfMemory;
use std::alloc::Global;

/// A text of its own with these characters.
pub(crate) fn text(alloc: Global, text: &str) -> Result<String, OutOfMemory>
    ensures { IfOk result (λ copy. string_bytes copy ≡ text.now) }
{
    Ok(String::from_str(alloc, text)?)
}

/// Appends a text.
pub(crate) fn add(into: &mut String, text: &str) -> Result<(), OutOfMemory>
    ensures { OnOk result (string_bytes into.new ≡ string_bytes into.old ++ text.now) }
{
    into.push_str(text)?;
    Ok(())
}

/// Appends a number in decimal.
pub(crate) fn add_number(into: &mut String, number: u64) -> Result<(), OutOfMemory>
    ensures { OnOk result (string_bytes into.new ≡ string_bytes into.old ++ decimal number) }
{
    let mut buffer = Buffer::new();
    add(into, buffer.format(number))
}

/// A text with a number at its end.
pub(crate) fn numbered(alloc: Global, front: &str, number: u64) -> Result<String, OutOfMemory>
    ensures { IfOk result (λ made. string_bytes made ≡ front.now ++ decimal number) }
{
    let mut made = text(alloc, front)?;
    add_number(&mut made, number)?;
    Ok(made)
}

/// One text behind another.
pub(crate) fn joined(alloc: Global, front: &str, behind: &str) -> Result<String, OutOfMemory>
    ensures { IfOk result (λ made. string_bytes made ≡ front.now ++ behind.now) }
{
    let mut made = text(alloc, front)?;
    add(&mut made, behind)?;
    Ok(made)
}
