// Pieces of a text.

/// Appends a text; `None` if memory runs out.
pub fn add(piece: &str, text: &mut String) -> Option<()> {
    text.push_str(piece).ok()
}

/// The text before the first such character, and the text behind it: nothing if there is none.
pub fn cut(text: &str, at: char) -> (&str, &str) {
    match text.split_once(at) {
        Some(parts) => parts,
        None => (text, ""),
    }
}
