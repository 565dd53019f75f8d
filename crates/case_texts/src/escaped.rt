// Bytes as text with escapes: `\r`, `\n` and `\xHH`.
use crate::pieces::add;
use std::alloc::Global;

/// The bytes that a text writes; `None` if it writes none, or memory runs out.
pub fn escaped_bytes(alloc: Global, text: &str) -> Option<Vec<u8>> {
    let mut bytes = Vec::new(alloc);
    let mut parts = text.split('\\');
    bytes.extend_from_slice(parts.next()?.as_bytes()).ok()?;
    for part in parts {
        add_escape(part, &mut bytes)?;
    }
    Some(bytes)
}

// What stands behind a backslash, up to the next one.
fn add_escape(part: &str, bytes: &mut Vec<u8>) -> Option<()> {
    let (word, rest) = part.split_at_checked(1)?;
    let (byte, rest) = match word {
        "r" => (b'\r', rest),
        "n" => (b'\n', rest),
        "x" => {
            let (digits, rest) = rest.split_at_checked(2)?;
            (u8::from_str_radix(digits, 16).ok()?, rest)
        }
        _ => return None,
    };
    bytes.push(byte).ok()?;
    bytes.extend_from_slice(rest.as_bytes()).ok()
}

fn add_shown(alloc: Global, byte: u8, text: &mut String) -> Option<()> {
    match byte {
        b'\r' => add("\\r", text),
        b'\n' => add("\\n", text),
        b' '..=b'[' | b']'..=b'~' => text.push(byte as char).ok(),
        _ => add(format!(in alloc; "\\x{byte:02X}").ok()?.as_str(), text),
    }
}

/// Appends bytes as `escaped_bytes` reads them. `None` if memory runs out.
pub fn add_escaped(alloc: Global, bytes: &[u8], text: &mut String) -> Option<()> {
    for byte in bytes {
        add_shown(alloc, *byte, text)?;
    }
    Some(())
}
