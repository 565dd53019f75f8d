// What is sent over a link and read from it.
use actor_ports::Conn;
use std::alloc::Global;

// What a number is after one digit more; a digit is a byte.
fn longer(number: usize, digit: u8) -> usize {
    number.saturating_mul(256).saturating_add(digit as usize)
}

// How many bytes a frame has that begins so; 4 as long as its length isn't there.
fn whole_length(bytes: &[u8]) -> usize {
    let Some((head, _)) = bytes.split_at_checked(4) else {
        return 4;
    };
    let mut length = 0usize;
    for byte in head {
        length = longer(length, *byte);
    }
    length.saturating_add(4)
}

// Reads a byte; false if the link has ended.
fn read_byte<C: Conn>(link: &mut C, bytes: &mut Vec<u8>) -> Option<bool> {
    let count = link.read(bytes, 1).ok()?;
    Some(count > 0)
}

/// One frame, or what there is of it where the link ends; `None` if the link fails.
pub(crate) fn read_frame<C: Conn>(alloc: Global, link: &mut C) -> Option<Vec<u8>> {
    let mut bytes = Vec::new(alloc);
    for _ in 0..65_536u32 {
        if bytes.len() >= whole_length(bytes.as_slice()) {
            break;
        }
        if !read_byte(link, &mut bytes)? {
            break;
        }
    }
    Some(bytes)
}

/// Sends bytes.
pub(crate) fn send<C: Conn>(link: &mut C, bytes: &[u8]) -> Option<()> {
    link.write(bytes).ok()
}
