// A disk with a standby, both in memory, and a placement over it.
ghost use Rattle.step_gate.specs.Gates.{IsSeatOf};
ghost use Rattle.placement_node.specs.Node.{NodeAllows};

use crate::disks::{add_error, add_result};
use crate::frames::add_frames;
use crate::numbers::bytes_of;
use crate::sessions::{Link, add_end, add_told, gate_of, link_with};
use crate::standbys::{Followed, follow};
use actor_ports::{MemConn, SessionEnd};
use case_texts::{add, add_hex, cut};
use disk_model::{Disk, MemDisk};
use frame_wire::{Frame, FrameReader, MirrorCommand};
use placement_node::PlacementNode;
use placement_sessions::placement_session;
use standby_core::Mirror;
use std::alloc::Global;
use std::sync::Wait;
use step_gate::{Gate, Seat};

// A disk with a standby, and a placement over it.
type Mirrored = Mirror<MemDisk, MemConn>;

type Copied = PlacementNode<Mirrored>;

// A case: its files, the calls that fail, and the answers of the link if no standby gives them.
#[derive(Drop)]
struct MirrorCase<'a> {
    file: Vec<u8>,
    other: Vec<u8>,
    of_disk: u64,
    of_link: u64,
    of_other: u64,
    answers: Option<Vec<u8>>,
    steps: &'a str,
    is_node: bool,
}

// What a run tells, what it sent to the standby, and what its disk reads as.
#[derive(Drop)]
struct Ran {
    told: String,
    sent: Vec<u8>,
    bytes: Vec<u8>,
}

// `CALL/CALL/CALL ANSWERS FILE/FILE STEPS`
fn case_of(alloc: Global, rest: &str, is_node: bool) -> Option<MirrorCase<'_>> {
    let (calls, rest) = rest.split_once(' ')?;
    let (answers, rest) = rest.split_once(' ')?;
    let (files, steps) = rest.split_once(' ')?;
    let (of_disk, calls) = calls.split_once('/')?;
    let (of_link, of_other) = calls.split_once('/')?;
    let (file, other) = files.split_once('/')?;
    let answers = match answers {
        "standby" => None,
        answers => Some(bytes_of(alloc, answers)?),
    };
    Some(MirrorCase {
        file: bytes_of(alloc, file)?,
        other: bytes_of(alloc, other)?,
        of_disk: of_disk.parse::<u64>().ok()?,
        of_link: of_link.parse::<u64>().ok()?,
        of_other: of_other.parse::<u64>().ok()?,
        answers,
        steps,
        is_node,
    })
}

// `write AT BYTES`
fn add_write(alloc: Global, mirror: &mut Mirrored, rest: &str, text: &mut String) -> Option<()> {
    let (at, bytes) = rest.split_once(' ')?;
    let at = at.parse::<u32>().ok()?;
    let bytes = bytes_of(alloc, bytes)?;
    if at as usize > mirror.disk().bytes().len() {
        return None;
    }
    add_result(alloc, mirror.write_at(at as u64, bytes.as_slice()), text)
}

// `cut LEN`
fn add_cut(alloc: Global, mirror: &mut Mirrored, rest: &str, text: &mut String) -> Option<()> {
    let len = rest.parse::<u32>().ok()?;
    if len as usize > mirror.disk().bytes().len() {
        return None;
    }
    add_result(alloc, mirror.cut(len as u64), text)
}

// `read AT MOST`
fn add_read(alloc: Global, mirror: &mut Mirrored, rest: &str, text: &mut String) -> Option<()> {
    let (at, most) = rest.split_once(' ')?;
    let (at, most) = (at.parse::<u64>().ok()?, most.parse::<usize>().ok()?);
    let mut into = Vec::new(alloc);
    match mirror.read(at, most, &mut into) {
        Ok(_) => add_hex(alloc, into.as_slice(), text),
        Err(error) => add_error(alloc, error, text),
    }
}

// `len`
fn add_len(alloc: Global, mirror: &mut Mirrored, text: &mut String) -> Option<()> {
    match mirror.len() {
        Ok(len) => add(format!(in alloc; "{len}").ok()?.as_str(), text),
        Err(error) => add_error(alloc, error, text),
    }
}

fn add_step(alloc: Global, mirror: &mut Mirrored, words: &str, text: &mut String) -> Option<()> {
    let (word, rest) = cut(words, ' ');
    match word {
        "len" => add_len(alloc, mirror, text),
        "read" => add_read(alloc, mirror, rest, text),
        "write" => add_write(alloc, mirror, rest, text),
        "cut" => add_cut(alloc, mirror, rest, text),
        "sync" => add_result(alloc, mirror.sync(), text),
        _ => None,
    }
}

// The steps on a disk with a standby.
fn add_steps(alloc: Global, mirror: &mut Mirrored, steps: &str, text: &mut String) -> Option<()> {
    for words in steps.split(';') {
        add_step(alloc, mirror, words, text)?;
        add(";", text)?;
    }
    Some(())
}

// The placement behind this gate after a session of frames, and how the session ended.
fn served<R: Wait>(
    rt: &R,
    alloc: Global,
    gate: Gate<Copied>,
    seat: Seat<Copied>,
    link: &mut Link,
) -> (Copied, SessionEnd)
    requires { IsSeatOf NodeAllows gate seat }
{
    let (seat, end) = placement_session(rt, alloc, &gate, seat, &mut link.conn, &mut link.clock);
    (gate.close(rt, seat), end)
}

// What sessions of these frames tell, one after another, of a placement.
fn add_sessions<R: Wait>(
    rt: &R,
    alloc: Global,
    node: Copied,
    sessions: &str,
    text: &mut String,
) -> Option<Copied> {
    let mut node = node;
    for frames in sessions.split(';') {
        let input = bytes_of(alloc, frames)?;
        let mut link = link_with(alloc, 2_000, input.as_slice(), 0)?;
        let (gate, seat) = gate_of(alloc, node)?;
        let (left, end) = served(rt, alloc, gate, seat, &mut link);
        node = left;
        add_told(alloc, end, link.conn.written(), text)?;
        add(";", text)?;
    }
    Some(node)
}

// A placement over this disk, which is made, and sessions of it.
fn add_node<R: Wait>(
    rt: &R,
    alloc: Global,
    mirror: Mirrored,
    sessions: &str,
    text: &mut String,
) -> Option<Mirrored> {
    match PlacementNode::open(alloc, mirror, true, 1_000) {
        Ok(node) => {
            let node = add_sessions(rt, alloc, node, sessions, text)?;
            let (mirror, _none) = node.close();
            Some(mirror)
        }
        Err((error, mirror)) => {
            add(format!(in alloc; "refused: {error};").ok()?.as_str(), text)?;
            Some(mirror)
        }
    }
}

// The steps of a case, whichever it is.
fn add_run<R: Wait>(
    rt: &R,
    alloc: Global,
    mirror: Mirrored,
    case: &MirrorCase<'_>,
    text: &mut String,
) -> Option<Mirrored> {
    if case.is_node {
        return add_node(rt, alloc, mirror, case.steps, text);
    }
    let mut mirror = mirror;
    add_steps(alloc, &mut mirror, case.steps, text)?;
    Some(mirror)
}

// A run over a link that gives these answers.
fn run<R: Wait>(rt: &R, alloc: Global, case: &MirrorCase<'_>, answers: &[u8]) -> Option<Ran> {
    let disk = MemDisk::new(alloc, case.file.as_slice(), &[case.of_disk]).ok()?;
    let link = MemConn::new(alloc, answers, &[case.of_link]).ok()?;
    let mut told = String::new(alloc);
    let (disk, link) = match Mirror::attach(alloc, disk, link) {
        Ok(mirror) => {
            add("attached;", &mut told)?;
            add_run(rt, alloc, mirror, case, &mut told)?.detach()
        }
        Err((error, disk, link)) => {
            add(
                format!(in alloc; "not attached: {error};").ok()?.as_str(),
                &mut told,
            )?;
            (disk, link)
        }
    };
    Some(Ran {
        told,
        sent: Vec::from_slice(alloc, link.written()).ok()?,
        bytes: Vec::from_slice(alloc, disk.bytes()).ok()?,
    })
}

// What the standby makes of these calls.
fn follow_case<R: Wait>(
    rt: &R,
    alloc: Global,
    case: &MirrorCase<'_>,
    sent: &[u8],
) -> Option<Followed> {
    follow(rt, alloc, case.other.as_slice(), sent, case.of_other, 0)
}

// The answers that tell a mirror of each call that it was done.
fn all_done(alloc: Global) -> Option<Vec<u8>> {
    let mut answers = Vec::new(alloc);
    for _ in 0..1_000u32 {
        answers.extend_from_slice(&[0, 0, 0, 1, 67]).ok()?;
    }
    Some(answers)
}

// The run of a case. What a standby answers is known from the calls of a run in which all are done: those before the first
// that isn't are the same.
fn run_case<R: Wait>(rt: &R, alloc: Global, case: &MirrorCase<'_>) -> Option<Ran> {
    if let Some(answers) = &case.answers {
        return run(rt, alloc, case, answers.as_slice());
    }
    let done = all_done(alloc)?;
    let wanted = run(rt, alloc, case, done.as_slice())?;
    let followed = follow_case(rt, alloc, case, wanted.sent.as_slice())?;
    run(rt, alloc, case, followed.answers.as_slice())
}

// Appends a call: `w` with place and length, `c` with the length, `s`.
fn add_call(alloc: Global, frame: &Frame, text: &mut String) -> Option<()> {
    match frame {
        Frame::Mirror {
            command: MirrorCommand::Write { at, bytes },
        } => {
            let (at, len) = (*at, bytes.as_slice().len());
            add(format!(in alloc; "w{at}+{len},").ok()?.as_str(), text)
        }
        Frame::Mirror {
            command: MirrorCommand::Cut { len },
        } => {
            let len = *len;
            add(format!(in alloc; "c{len},").ok()?.as_str(), text)
        }
        Frame::Mirror {
            command: MirrorCommand::Sync,
        } => add("s,", text),
        _ => add("?,", text),
    }
}

// Appends the calls that were sent, each in short.
fn add_calls(alloc: Global, sent: &[u8], text: &mut String) -> Option<()> {
    let mut reader = FrameReader::new(alloc);
    reader.feed(sent).ok()?;
    for _ in 0..sent.len() {
        match reader.next() {
            Some(frame) => add_call(alloc, &frame, text)?,
            None => break,
        }
    }
    Some(())
}

// Appends what a run told and sent, and what came of it at the standby.
fn add_ran<R: Wait>(
    rt: &R,
    alloc: Global,
    case: &MirrorCase<'_>,
    text: &mut String,
) -> Option<Followed> {
    let ran = run_case(rt, alloc, case)?;
    let followed = follow_case(rt, alloc, case, ran.sent.as_slice())?;
    add(ran.told.as_str(), text)?;
    add(" ", text)?;
    if !case.is_node {
        add_calls(alloc, ran.sent.as_slice(), text)?;
        add(" ", text)?;
    }
    add_end(alloc, followed.end, text)?;
    let same = ran.bytes.as_slice() == followed.disk.bytes();
    add(if same { "same" } else { "other" }, text)?;
    Some(followed)
}

/// `CALL/CALL/CALL ANSWERS FILE/FILE STEP;STEP;..`
pub(crate) fn add_mirror<R: Wait>(
    rt: &R,
    alloc: Global,
    rest: &str,
    text: &mut String,
) -> Option<()> {
    let case = case_of(alloc, rest, false)?;
    let _followed = add_ran(rt, alloc, &case, text)?;
    Some(())
}

// What a placement that is opened on this disk answers to these frames.
fn add_opened<R: Wait>(
    rt: &R,
    alloc: Global,
    disk: MemDisk,
    frames: &[u8],
    text: &mut String,
) -> Option<()> {
    let node = match PlacementNode::open(alloc, disk, false, 3_000) {
        Ok(node) => node,
        Err((error, _disk)) => return add(format!(in alloc; "{error}").ok()?.as_str(), text),
    };
    let mut link = link_with(alloc, 4_000, frames, 0)?;
    let (gate, seat) = gate_of(alloc, node)?;
    let (seat, _end) = placement_session(rt, alloc, &gate, seat, &mut link.conn, &mut link.clock);
    let _node = gate.close(rt, seat);
    add_frames(alloc, link.conn.written(), text)
}

/// `CALL/CALL/CALL ANSWERS FILE/FILE BYTES;BYTES;.. BYTES`
pub(crate) fn add_copied<R: Wait>(
    rt: &R,
    alloc: Global,
    rest: &str,
    text: &mut String,
) -> Option<()> {
    let (rest, frames) = rest.rsplit_once(' ')?;
    let case = case_of(alloc, rest, true)?;
    let followed = add_ran(rt, alloc, &case, text)?;
    let frames = bytes_of(alloc, frames)?;
    for choice in [0u64, 1, 257] {
        let image = followed.disk.image(choice).ok()?;
        add(format!(in alloc; " {choice}: ").ok()?.as_str(), text)?;
        add_opened(rt, alloc, image, frames.as_slice(), text)?;
    }
    add(" now: ", text)?;
    add_opened(rt, alloc, followed.disk, frames.as_slice(), text)
}
