// Texts with a name of two pieces, of unknown length, and how a text comes whole or not at all.
ghost use Rattle.std.specs.Prelude.{◌≡◌, ◌++◌, length, take, codes, OnOk, OnErr};

use std::alloc::AllocError;

/// Appends the pieces one after another, as many as there is memory for, with a slash after the second.
fn append_pieces(
    into: &mut Vec<u8>,
    front: &[u8],
    first: &[u8],
    second: &[u8],
    back: &[u8],
) -> Result<(), AllocError>
    ensures added { OnOk result (into.new.items ≡ into.old.items ++ (front.now ++ first.now ++ codes "/" ++ second.now ++ back.now)) }
    ensures kept { take (length into.old.items) into.new.items ≡ into.old.items }
{
    into.extend_from_slice(front)?;
    into.extend_from_slice(first)?;
    into.extend_from_slice(b"/")?;
    into.extend_from_slice(second)?;
    into.extend_from_slice(back)
}

/// The result of an append that began at `start`; if there was no memory for all of it, what it appended is removed.
pub(crate) fn whole_or_none(
    into: &mut Vec<u8>,
    start: usize,
    appended: Result<(), AllocError>,
) -> Result<(), AllocError>
    ensures whole { OnOk result (into.new.items ≡ into.old.items) }
    ensures none { OnErr result (into.new.items ≡ take start into.old.items) }
    ensures answer { result ≡ appended }
{
    if appended.is_err() {
        into.truncate(start);
    }
    appended
}

/// Appends the pieces, with a slash after the second; if there is no memory for all of them, nothing.
pub(crate) fn append_pair(
    into: &mut Vec<u8>,
    front: &[u8],
    first: &[u8],
    second: &[u8],
    back: &[u8],
) -> Result<(), AllocError>
    ensures added { OnOk result (into.new.items ≡ into.old.items ++ (front.now ++ first.now ++ codes "/" ++ second.now ++ back.now)) }
    ensures unchanged { OnErr result (into.new.items ≡ into.old.items) }
{
    let start = into.len();
    let appended = append_pieces(into, front, first, second, back);
    whole_or_none(into, start, appended)
}
