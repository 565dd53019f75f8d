// Sessions that are cut at every byte.
use crate::frames::wanted;
use crate::numbers::bytes_of;
use crate::sessions::link_with;
use crate::stores::{Memory, serve};
use case_texts::add;
use disk_model::MemDisk;
use fence_rows::Fenced;
use std::alloc::Global;
use std::sync::Wait;

// A new store.
fn new_store(alloc: Global) -> Option<Memory> {
    let first = MemDisk::new(alloc, b"", &[]).ok()?;
    let second = MemDisk::new(alloc, b"", &[]).ok()?;
    Fenced::open(alloc, first, second, true).ok()
}

// What a session of these bytes tells.
fn told<R: Wait>(rt: &R, alloc: Global, kept: &mut Option<Memory>, bytes: &[u8]) -> Option<String> {
    let mut link = link_with(alloc, 0, bytes, 0)?;
    let mut text = String::new(alloc);
    serve(rt, alloc, kept, &mut link, &mut text)?;
    Some(text)
}

// At how many cuts of these bytes a session goes as it should, each with the same store.
fn good_cuts<R: Wait>(
    rt: &R,
    alloc: Global,
    kept: &mut Option<Memory>,
    bytes: &[u8],
    answers: &[u8],
) -> Option<usize> {
    let mut good = 0usize;
    for n in 0..bytes.len() {
        let (front, _) = bytes.split_at_checked(n)?;
        let text = told(rt, alloc, kept, front)?;
        if text.as_str() == wanted(alloc, front, answers)?.as_str() {
            good = good.saturating_add(1);
        }
    }
    Some(good)
}

/// `FIRST BYTES ANSWERS`
pub(crate) fn add_cuts<R: Wait>(
    rt: &R,
    alloc: Global,
    rest: &str,
    text: &mut String,
) -> Option<()> {
    let (first, rest) = rest.split_once(' ')?;
    let (bytes, answers) = rest.split_once(' ')?;
    let first = bytes_of(alloc, first)?;
    let bytes = bytes_of(alloc, bytes)?;
    let answers = bytes_of(alloc, answers)?;
    let mut kept = new_store(alloc);
    let _before = told(rt, alloc, &mut kept, first.as_slice())?;
    let good = good_cuts(rt, alloc, &mut kept, bytes.as_slice(), answers.as_slice())?;
    let all = bytes.len();
    add(format!(in alloc; "{good} of {all}").ok()?.as_str(), text)
}
