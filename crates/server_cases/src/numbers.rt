// Bytes as the cases write them, with numbers that are counted.
use case_texts::{add, add_hex, hex_bytes};
use std::alloc::Global;

// Appends five decimal digits as text, each byte in hexadecimal digits.
fn add_decimal(alloc: Global, number: u64, digits: &mut String) -> Option<()> {
    let text = format!(in alloc; "{number:05}").ok()?;
    add_hex(alloc, text.as_bytes(), digits)
}

// Appends a digit, or what stands for a number.
fn add_digit(alloc: Global, digit: char, number: u64, digits: &mut String) -> Option<()> {
    match digit {
        'N' => add(format!(in alloc; "{number:016x}").ok()?.as_str(), digits),
        'D' => add_decimal(alloc, number, digits),
        'P' => add_decimal(alloc, number.saturating_sub(1), digits),
        _ => digits.push(digit).ok(),
    }
}

// Appends the bytes of these digits, in which letters stand for this number.
fn add_number(alloc: Global, template: &str, number: u64, bytes: &mut Vec<u8>) -> Option<()> {
    let mut digits = String::new(alloc);
    for digit in template.chars() {
        add_digit(alloc, digit, number, &mut digits)?;
    }
    let piece = hex_bytes(alloc, digits.as_str())?;
    bytes.extend_from_slice(piece.as_slice()).ok()
}

// `FIRST..LAST:DIGITS`
fn add_numbers(alloc: Global, range: &str, template: &str, bytes: &mut Vec<u8>) -> Option<()> {
    let (first, last) = range.split_once("..")?;
    let first = first.parse::<u32>().ok()?;
    let last = last.parse::<u32>().ok()?;
    for number in first as u64..last as u64 + 1 {
        add_number(alloc, template, number, bytes)?;
    }
    Some(())
}

fn add_part(alloc: Global, part: &str, bytes: &mut Vec<u8>) -> Option<()> {
    if let Some((range, template)) = part.split_once(':') {
        return add_numbers(alloc, range, template, bytes);
    }
    let piece = hex_bytes(alloc, part)?;
    bytes.extend_from_slice(piece.as_slice()).ok()
}

/// The bytes that a text writes; `None` if it writes none, or memory ran out.
pub(crate) fn bytes_of(alloc: Global, text: &str) -> Option<Vec<u8>> {
    let mut bytes = Vec::new(alloc);
    if text == "-" {
        return Some(bytes);
    }
    for part in text.split(',') {
        add_part(alloc, part, &mut bytes)?;
    }
    Some(bytes)
}
