// JSON texts that are read and written.
use crate::parts::{add_arrays, shown};
use case_texts::escaped_bytes;
use json_text::{Json, JsonError, JsonRef, Member, Piece, array_text, object_text, quoted_text};
use std::alloc::Global;

/// The text of the value that the bytes are, or why there is none.
pub(crate) fn json(alloc: Global, text: &str) -> Option<String> {
    read(alloc, escaped_bytes(alloc, text)?.as_slice())
}

fn read(alloc: Global, body: &[u8]) -> Option<String> {
    match &Json::read(alloc, body) {
        Ok(json) => text_of(alloc, &json.as_ref()),
        Err(JsonError::NotJson) => String::from_str(alloc, "not json").ok(),
        Err(JsonError::OutOfMemory) => None,
    }
}

fn text_of(alloc: Global, value: &JsonRef<'_>) -> Option<String> {
    if value.has_other_number() {
        return String::from_str(alloc, "other number").ok();
    }
    shown(alloc, value.to_text(alloc).ok()?.as_slice())
}

/// The same of so many arrays, each inside the one before.
pub(crate) fn arrays(alloc: Global, text: &str) -> Option<String> {
    let mut body = Vec::new(alloc);
    add_arrays(text.parse::<u64>().ok()?, &mut body)?;
    read(alloc, body.as_slice())
}

fn add_kinds(value: &JsonRef<'_>, words: &mut String) -> Option<()> {
    if value.is_null() {
        words.push_str("null;").ok()?;
    }
    if value.is_array() {
        words.push_str("array;").ok()?;
    }
    if value.is_object() {
        words.push_str("object;").ok()?;
    }
    Some(())
}

fn add_numbers(alloc: Global, value: &JsonRef<'_>, words: &mut String) -> Option<()> {
    if let Some(number) = value.as_u64() {
        let word = format!(in alloc; "u64 {number};").ok()?;
        words.push_str(word.as_str()).ok()?;
    }
    if let Some(number) = value.as_i64() {
        let word = format!(in alloc; "i64 {number};").ok()?;
        words.push_str(word.as_str()).ok()?;
    }
    Some(())
}

fn add_contents(alloc: Global, value: &JsonRef<'_>, words: &mut String) -> Option<()> {
    if let Some(truth) = value.as_bool() {
        let word = format!(in alloc; "{truth};").ok()?;
        words.push_str(word.as_str()).ok()?;
    }
    if let Some(text) = value.as_str() {
        let word = format!(in alloc; "{text:?};").ok()?;
        words.push_str(word.as_str()).ok()?;
    }
    if let Some(count) = value.item_count() {
        let word = format!(in alloc; "{count} items;").ok()?;
        words.push_str(word.as_str()).ok()?;
    }
    Some(())
}

// What each look-up finds.
fn found(alloc: Global, value: &Option<JsonRef<'_>>) -> Option<String> {
    let mut words = String::new(alloc);
    match value {
        Some(value) => {
            add_kinds(value, &mut words)?;
            add_numbers(alloc, value, &mut words)?;
            add_contents(alloc, value, &mut words)?;
        }
        None => words.push_str("none").ok()?,
    }
    Some(words)
}

/// What each look-up finds in the value that the bytes are.
pub(crate) fn whole(alloc: Global, text: &str) -> Option<String> {
    let json = Json::read(alloc, escaped_bytes(alloc, text)?.as_slice()).ok()?;
    found(alloc, &Some(json.as_ref()))
}

/// `KEY BYTES`
pub(crate) fn member(alloc: Global, text: &str) -> Option<String> {
    let (key, text) = text.split_once(' ')?;
    let json = Json::read(alloc, escaped_bytes(alloc, text)?.as_slice()).ok()?;
    found(alloc, &json.as_ref().member(key))
}

/// `INDEX BYTES`
pub(crate) fn item(alloc: Global, text: &str) -> Option<String> {
    let (index, text) = text.split_once(' ')?;
    let index = index.parse::<usize>().ok()?;
    let json = Json::read(alloc, escaped_bytes(alloc, text)?.as_slice()).ok()?;
    found(alloc, &json.as_ref().item(index))
}

/// The text in quotes.
pub(crate) fn quoted(alloc: Global, text: &str) -> Option<String> {
    let text = String::from_utf8(escaped_bytes(alloc, text)?).ok()?;
    shown(alloc, quoted_text(alloc, text.as_str()).ok()?.as_slice())
}

fn piece(text: &str) -> Option<Piece<'_>> {
    let (word, rest) = text.split_once(':')?;
    match word {
        "kept" => Some(Piece::Kept(rest.as_bytes())),
        "text" => Some(Piece::Text(rest)),
        "natural" => Some(Piece::Natural(rest.parse::<u64>().ok()?)),
        "null" => Some(Piece::Null),
        _ => None,
    }
}

/// `PIECE ..`
pub(crate) fn array(alloc: Global, text: &str) -> Option<String> {
    let mut items = Vec::new(alloc);
    if !text.is_empty() {
        for part in text.split(' ') {
            items.push(piece(part)?).ok()?;
        }
    }
    shown(alloc, array_text(alloc, items.as_slice()).ok()?.as_slice())
}

fn one_member(text: &str) -> Option<Member<'_>> {
    let (key, text) = text.split_once('=')?;
    let value = piece(text)?;
    Some(Member { key, value })
}

/// `KEY=PIECE ..`
pub(crate) fn object(alloc: Global, text: &str) -> Option<String> {
    let mut members = Vec::new(alloc);
    if !text.is_empty() {
        for part in text.split(' ') {
            members.push(one_member(part)?).ok()?;
        }
    }
    shown(
        alloc,
        object_text(alloc, members.as_slice()).ok()?.as_slice(),
    )
}
