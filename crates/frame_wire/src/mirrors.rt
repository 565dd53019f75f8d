// The fields of what a placement and its standby say to each other.
ghost use Rattle.std.specs.Prelude.{◌≡◌, ◌≤◌, ◌+◌, ◌++◌, [], length, OnOk};
ghost use Rattle.wire_fields.specs.Fields.{number32};
ghost use Rattle.wire_fields.specs.Gives.{Gives};
ghost use Rattle.wire_fields.specs.Parts.{at_most};
ghost use Rattle.frame_wire.specs.declared.frame.Frame.TheVariants as frames;
ghost use Rattle.frame_wire.specs.declared.kind.Kind.TheVariants as kinds;
ghost use Rattle.frame_wire.specs.declared.mirror.MirrorCommand.TheVariants as commands;
ghost use Rattle.frame_wire.specs.Frames.{kind_row, frame_bytes};
ghost use Rattle.frame_wire.specs.Mirrors.{most_piece, piece, mirror_kind, mirror_fields, MirrorFits, mirrored_kind};

use crate::frame::Frame;
use crate::kind::Kind;
use crate::mirror::{MOST_PIECE, MirrorAnswer, MirrorCommand};
use lists_and_limits::{Bytes, OutOfMemory};
use std::alloc::Global;
use wire_fields::{Fault, put_long_bytes, put_tag, put_u32, put_u64, u32_at, u64_at};

// Reads the length of the bytes of a write.
fn piece_len_at(rest: &mut &[u8]) -> Result<u32, Fault>
    ensures { Gives (λ x. (x, rest.new.now)) result ((at_most most_piece number32).at rest.old.now) }
{
    let left = rest.len();
    let n = u32_at(rest)?;
    if n > MOST_PIECE {
        return Err(Fault::Field { left });
    }
    Ok(n)
}

// Reads the bytes of a write.
#[tactic(auto, unfolding(crate::specs::Mirrors::piece))]
fn piece_bytes_at<'a>(rest: &mut &'a [u8]) -> Result<&'a [u8], Fault>
    ensures { Gives (λ x. (x.now, rest.new.now)) result (piece.at rest.old.now) }
{
    let left = rest.len();
    let n = piece_len_at(rest)? as usize;
    if rest.len() < n {
        return Err(Fault::Field { left });
    }
    let (front, others) = rest.split_at(n);
    *rest = others;
    Ok(front)
}

fn piece_at(alloc: Global, rest: &mut &[u8]) -> Result<Bytes, Fault>
    ensures { Gives (λ x. (x, rest.new.now)) result (piece.at rest.old.now) }
{
    let bytes = piece_bytes_at(rest)?;
    let bytes = Vec::from_slice(alloc, bytes)?;
    Ok(Bytes::from_vec(bytes))
}

pub(crate) fn mirror_write_at(alloc: Global, rest: &mut &[u8]) -> Result<Frame, Fault>
    ensures { Gives (λ x. (x, rest.new.now)) result (kind_row kinds.MirrorWrite rest.old.now) }
{
    let at = u64_at(rest)?;
    let bytes = piece_at(alloc, rest)?;
    let command = MirrorCommand::Write { at, bytes };
    Ok(Frame::Mirror { command })
}

pub(crate) fn mirror_cut_at(rest: &mut &[u8]) -> Result<Frame, Fault>
    ensures { Gives (λ x. (x, rest.new.now)) result (kind_row kinds.MirrorCut rest.old.now) }
{
    let len = u64_at(rest)?;
    let command = MirrorCommand::Cut { len };
    Ok(Frame::Mirror { command })
}

// The kind of a call.
pub(crate) fn mirror_kind(command: &MirrorCommand) -> Kind
    ensures { result ≡ mirror_kind command.now }
{
    match command {
        MirrorCommand::Write { .. } => Kind::MirrorWrite,
        MirrorCommand::Cut { .. } => Kind::MirrorCut,
        MirrorCommand::Sync => Kind::MirrorSync,
    }
}

// The kind of an answer.
pub(crate) fn mirrored_kind(answer: MirrorAnswer) -> Kind
    ensures { result ≡ mirrored_kind answer }
{
    match answer {
        MirrorAnswer::Done => Kind::MirrorDone,
        MirrorAnswer::Fault => Kind::MirrorFault,
    }
}

// Writes the place and the bytes of a write.
#[tactic(auto, unfolding(crate::specs::Mirrors::piece, wire_fields::specs::Fields::number32))]
fn put_write(out: &mut Vec<u8>, at: u64, bytes: &[u8]) -> Result<(), OutOfMemory>
    requires { MirrorFits (commands.Write at bytes.now) }
    ensures { OnOk result (out.new.items ≡ out.old.items ++ mirror_fields (commands.Write at bytes.now)) }
{
    put_u64(out, at)?;
    put_long_bytes(out, bytes)
}

// Writes the fields of a call.
pub(crate) fn put_mirror(out: &mut Vec<u8>, command: &MirrorCommand) -> Result<(), OutOfMemory>
    requires { MirrorFits command.now }
    ensures { OnOk result (out.new.items ≡ out.old.items ++ mirror_fields command.now) }
{
    match command {
        MirrorCommand::Write { at, bytes } => put_write(out, *at, bytes.as_slice()),
        MirrorCommand::Cut { len } => put_u64(out, *len),
        MirrorCommand::Sync => Ok(()),
    }
}

/// Writes the spelling of a write into bytes that are empty; what is written is copied only there. After `OutOfMemory`
/// a part may have been written.
#[tactic(auto, unfolding(crate::specs::Frames::payload, crate::specs::Mirrors::piece, wire_fields::specs::Fields::number32, wire_fields::specs::Fields::number64))]
pub fn write_piece(at: u64, bytes: &[u8], into: &mut Vec<u8>) -> Result<(), OutOfMemory>
    requires empty { into.old.items ≡ [] }
    requires short { length bytes.now ≤ most_piece }
    ensures { OnOk result (into.new.items ≡ frame_bytes (frames.Mirror (commands.Write at bytes.now))) }
{
    put_u32(into, 13 + bytes.len() as u32)?;
    put_tag(into, Kind::MirrorWrite.byte())?;
    put_write(into, at, bytes)
}
