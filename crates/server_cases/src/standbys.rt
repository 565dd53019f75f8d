// A standby's session in memory.
use crate::frames::add_frames;
use crate::numbers::bytes_of;
use crate::sessions::add_end;
use actor_ports::{MemConn, SessionEnd};
use case_texts::{add, add_hex};
use disk_model::MemDisk;
use standby_session::standby_session;
use std::alloc::Global;
use std::sync::Wait;

/// What came of a standby's session: its end, its answers, and the standby's disk.
#[derive(Drop)]
pub(crate) struct Followed {
    pub(crate) end: SessionEnd,
    pub(crate) answers: Vec<u8>,
    pub(crate) disk: MemDisk,
}

/// A session of these bytes on a disk of this file; the calls of these numbers fail, of the disk and of the connection.
pub(crate) fn follow<R: Wait>(
    rt: &R,
    alloc: Global,
    file: &[u8],
    bytes: &[u8],
    of_disk: u64,
    of_link: u64,
) -> Option<Followed> {
    let mut disk = MemDisk::new(alloc, file, &[of_disk]).ok()?;
    let mut conn = MemConn::new(alloc, bytes, &[of_link]).ok()?;
    let end = standby_session(rt, alloc, &mut disk, &mut conn);
    let answers = Vec::from_slice(alloc, conn.written()).ok()?;
    Some(Followed { end, answers, disk })
}

/// `CALL/CALL FILE BYTES`
pub(crate) fn add_standby<R: Wait>(
    rt: &R,
    alloc: Global,
    rest: &str,
    text: &mut String,
) -> Option<()> {
    let (calls, rest) = rest.split_once(' ')?;
    let (file, bytes) = rest.split_once(' ')?;
    let (of_disk, of_link) = calls.split_once('/')?;
    let file = bytes_of(alloc, file)?;
    let bytes = bytes_of(alloc, bytes)?;
    let followed = follow(
        rt,
        alloc,
        file.as_slice(),
        bytes.as_slice(),
        of_disk.parse::<u64>().ok()?,
        of_link.parse::<u64>().ok()?,
    )?;
    add_end(alloc, followed.end, text)?;
    add_frames(alloc, followed.answers.as_slice(), text)?;
    add(" reads ", text)?;
    add_hex(alloc, followed.disk.bytes(), text)
}
