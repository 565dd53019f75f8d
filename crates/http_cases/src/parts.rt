// What the cases of all subjects are made of.
use case_texts::add_escaped;
use http_edge::{Bytes, HttpField, HttpFields};
use std::alloc::Global;

/// The bytes as a case writes them; `None` if memory runs out.
pub(crate) fn shown(alloc: Global, bytes: &[u8]) -> Option<String> {
    let mut text = String::new(alloc);
    add_escaped(alloc, bytes, &mut text)?;
    Some(text)
}

/// Appends a piece so many times.
pub(crate) fn add_many(piece: &[u8], count: u64, bytes: &mut Vec<u8>) -> Option<()> {
    for _ in 0..count {
        bytes.extend_from_slice(piece).ok()?;
    }
    Some(())
}

/// Appends so many arrays, each inside the one before.
pub(crate) fn add_arrays(count: u64, bytes: &mut Vec<u8>) -> Option<()> {
    add_many(b"[", count, bytes)?;
    add_many(b"]", count, bytes)
}

/// The bytes of a text.
pub(crate) fn bytes(alloc: Global, text: &str) -> Option<Bytes> {
    Bytes::from_slice(alloc, text.as_bytes()).ok()
}

/// Appends a field.
pub(crate) fn add_field(
    alloc: Global,
    name: &str,
    value: &str,
    fields: &mut Vec<HttpField>,
) -> Option<()> {
    let name = bytes(alloc, name)?;
    let value = bytes(alloc, value)?;
    fields.push(HttpField { name, value }).ok()
}

/// One field, or none if the name is empty.
pub(crate) fn one_field(alloc: Global, name: &str, value: &str) -> Option<HttpFields> {
    let mut fields = Vec::new(alloc);
    if !name.is_empty() {
        add_field(alloc, name, value, &mut fields)?;
    }
    Some(HttpFields::from_vec(fields))
}

/// The fields of a list `NAME:VALUE`, joined by commas.
pub(crate) fn fields(alloc: Global, list: &str) -> Option<HttpFields> {
    let mut fields = Vec::new(alloc);
    for one in list.split(',') {
        if let Some((name, value)) = one.split_once(':') {
            add_field(alloc, name, value, &mut fields)?;
        }
    }
    Some(HttpFields::from_vec(fields))
}
