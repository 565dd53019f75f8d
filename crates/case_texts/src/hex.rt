// Bytes in hexadecimal digits.
use crate::pieces::add;
use std::alloc::Global;

fn byte_of(digits: &str) -> Option<u8> {
    u8::from_str_radix(digits, 16).ok()
}

// Appends a byte so many times.
fn add_many(byte: u8, count: u32, bytes: &mut Vec<u8>) -> Option<()> {
    for _ in 0..count {
        bytes.push(byte).ok()?;
    }
    Some(())
}

// Appends the bytes of digits.
fn add_digits(text: &str, bytes: &mut Vec<u8>) -> Option<()> {
    let mut rest = text;
    for _ in 0..text.len() {
        if rest.is_empty() {
            break;
        }
        let (digits, more) = rest.split_at_checked(2)?;
        bytes.push(byte_of(digits)?).ok()?;
        rest = more;
    }
    Some(())
}

// Appends the bytes of a piece.
fn add_piece(piece: &str, bytes: &mut Vec<u8>) -> Option<()> {
    match piece.split_once('*') {
        Some((digits, count)) => add_many(byte_of(digits)?, count.parse::<u32>().ok()?, bytes),
        None => add_digits(piece, bytes),
    }
}

/// The bytes that a text writes: pieces between `.`, each digits, or the digits of a byte that stands there COUNT times,
/// `HH*COUNT`. `None` if it writes none, or memory runs out.
pub fn hex_bytes(alloc: Global, text: &str) -> Option<Vec<u8>> {
    let mut bytes = Vec::new(alloc);
    for piece in text.split('.') {
        add_piece(piece, &mut bytes)?;
    }
    Some(bytes)
}

// How many bytes equal to this one the bytes begin with.
fn run_of(bytes: &[u8], first: u8) -> usize {
    let mut count = 0usize;
    for byte in bytes {
        if *byte != first {
            break;
        }
        count = count.saturating_add(1);
    }
    count
}

fn add_byte(alloc: Global, byte: u8, text: &mut String) -> Option<()> {
    add(format!(in alloc; "{byte:02x}").ok()?.as_str(), text)
}

fn add_run(alloc: Global, byte: u8, count: usize, text: &mut String) -> Option<()> {
    add(
        format!(in alloc; ".{byte:02x}*{count}.").ok()?.as_str(),
        text,
    )
}

// Appends the first byte, or what stands for it and the equal ones behind it, and returns the others.
fn add_first<'a>(alloc: Global, bytes: &'a [u8], text: &mut String) -> Option<&'a [u8]> {
    let (first, rest) = bytes.split_first()?;
    let count = run_of(bytes, *first);
    if count > 64 {
        add_run(alloc, *first, count, text)?;
        let (_, others) = bytes.split_at_checked(count)?;
        return Some(others);
    }
    add_byte(alloc, *first, text)?;
    Some(rest)
}

/// Appends bytes as `hex_bytes` reads them; more than 64 equal ones in a row are a piece `HH*COUNT`. `None` if memory runs
/// out.
pub fn add_hex(alloc: Global, bytes: &[u8], text: &mut String) -> Option<()> {
    let mut rest = bytes;
    for _ in 0..bytes.len() {
        if rest.is_empty() {
            break;
        }
        rest = add_first(alloc, rest, text)?;
    }
    Some(())
}
