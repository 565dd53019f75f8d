// Texts that are repeated with a number in them.
use case_texts::escaped_bytes;
use std::alloc::Global;

// The bytes between the places of the number.
fn pieces_of(alloc: Global, text: &str) -> Option<Vec<Vec<u8>>> {
    let mut pieces = Vec::new(alloc);
    for piece in text.split("\\#") {
        pieces.push(escaped_bytes(alloc, piece)?).ok()?;
    }
    Some(pieces)
}

// Appends the pieces, with the number between them.
fn add_numbered(alloc: Global, pieces: &[Vec<u8>], number: u64, into: &mut Vec<u8>) -> Option<()> {
    let (first, rest) = pieces.split_first()?;
    into.extend_from_slice(first.as_slice()).ok()?;
    for piece in rest {
        let digits = format!(in alloc; "{number}").ok()?;
        into.extend_from_slice(digits.as_bytes()).ok()?;
        into.extend_from_slice(piece.as_slice()).ok()?;
    }
    Some(())
}

/// Appends the bytes of a text `count` times, in which `\#` stands for how often it has come.
pub(crate) fn add_repeated(
    alloc: Global,
    count: u64,
    text: &str,
    into: &mut Vec<u8>,
) -> Option<()> {
    let pieces = pieces_of(alloc, text)?;
    for number in 0..count {
        add_numbered(alloc, pieces.as_slice(), number + 1, into)?;
    }
    Some(())
}
