// Frames worked by hand: streams that are read in two pieces and written again, and what frames and commands say.
use frame_wire::{FrameError, FrameReader, read_command, write_frame};
use std::alloc::Global;

/// The frames of a stream in two pieces, written one behind another; or its fault.
pub(crate) fn written_again(
    alloc: Global,
    first: &[u8],
    second: &[u8],
) -> Result<Vec<u8>, FrameError> {
    let mut reader = FrameReader::new(alloc);
    reader.feed(first)?;
    reader.feed(second)?;
    let mut out = Vec::new(alloc);
    for _ in 0..1000 {
        let Some(frame) = reader.next() else {
            break;
        };
        if write_frame(&frame, &mut out).is_err() {
            return Err(FrameError::OutOfMemory);
        }
    }
    Ok(out)
}

/// Whether the frames are written as they came, or their fault.
pub(crate) fn again(alloc: Global, bytes: &[u8]) -> Option<String> {
    match written_again(alloc, bytes, b"") {
        Ok(out) if out.as_slice() == bytes => String::from_str(alloc, "again").ok(),
        Ok(_) => String::from_str(alloc, "otherwise").ok(),
        Err(_) => told_twice(alloc, bytes),
    }
}

// The fault of these bytes, and what the reader answers to one byte more; it gives no frame.
fn told_twice(alloc: Global, bytes: &[u8]) -> Option<String> {
    let mut reader = FrameReader::new(alloc);
    let first = reader.feed(bytes).err()?;
    let second = reader.feed(b"\x00").err()?;
    match reader.next() {
        None => format!(in alloc; "{first}; {second}").ok(),
        Some(_) => None,
    }
}

fn is_same(alloc: Global, bytes: &[u8], at: usize) -> bool {
    let Some((first, second)) = bytes.split_at_checked(at) else {
        return false;
    };
    match written_again(alloc, first, second) {
        Ok(out) => out.as_slice() == bytes,
        Err(_) => false,
    }
}

/// At how many cuts a stream is written as it came, and how many there are.
pub(crate) fn cuts(alloc: Global, bytes: &[u8]) -> Option<String> {
    let mut same = 0usize;
    for at in 0..bytes.len() {
        if is_same(alloc, bytes, at) {
            same = same.saturating_add(1);
        }
    }
    let all = bytes.len();
    format!(in alloc; "{same} {all} ").ok()
}

/// The first frame of these bytes.
pub(crate) fn frame(alloc: Global, bytes: &[u8]) -> Option<String> {
    let mut reader = FrameReader::new(alloc);
    reader.feed(bytes).ok()?;
    let frame = reader.next()?;
    format!(in alloc; "{frame:?}").ok()
}

/// Whether the bytes are a command, or their fault.
pub(crate) fn command(alloc: Global, bytes: &[u8]) -> Option<String> {
    match read_command(alloc, bytes).err() {
        None => String::from_str(alloc, "a command").ok(),
        Some(error) => format!(in alloc; "{error}").ok(),
    }
}
