// The kinds of frames and their fields, read from the start of some bytes and appended to others.
ghost use Rattle.std.specs.Prelude.{◌≡◌, ◌++◌, OnOk};
ghost use Rattle.frame_wire.specs.Frames.{payload, whole_frame, kind_row, frame_fields, frame_kind, FieldsFit};
ghost use Rattle.wire_fields.specs.Gives.{Gives};
ghost use Rattle.frame_wire.specs.Kinds.{byte_of};
ghost use Rattle.frame_wire.specs.declared.kind.Kind.TheVariants as kinds;

use crate::frame::Frame;
use crate::hosts::Hosts;
use crate::kind::Kind;
use crate::mirror::{MirrorAnswer, MirrorCommand};
use crate::mirrors::{mirror_cut_at, mirror_kind, mirror_write_at, mirrored_kind, put_mirror};
use crate::refusals::{put_refusal, refusal_at};
use crate::store_answers::{answer_at, answer_kind, put_answer_fields};
use crate::store_command::StateOps;
use crate::store_commands::{command_at, command_kind, put_command_fields, put_stamp, stamp_at};
use crate::store_kind::{AnswerKind, CommandKind};
use lists_and_limits::OutOfMemory;
use std::alloc::Global;
use wire_fields::{
    Fault, actor_at, counter_at, host_at, hosts_at, member_at, ops_at, put_actor, put_counter,
    put_host, put_hosts, put_member, put_ops, put_stage, put_tag, stage_at,
};

fn register_at(alloc: Global, rest: &mut &[u8]) -> Result<Frame, Fault>
    ensures { Gives (λ x. (x, rest.new.now)) result (kind_row kinds.Register rest.old.now) }
{
    let host = host_at(alloc, rest)?;
    Ok(Frame::Register { host })
}

fn ack_at(rest: &mut &[u8]) -> Result<Frame, Fault>
    ensures { Gives (λ x. (x, rest.new.now)) result (kind_row kinds.Ack rest.old.now) }
{
    let member = member_at(rest)?;
    let stage = stage_at(rest)?;
    let version = counter_at(rest)?;
    Ok(Frame::Ack {
        member,
        stage,
        version,
    })
}

fn update_at(alloc: Global, rest: &mut &[u8]) -> Result<Frame, Fault>
    ensures { Gives (λ x. (x, rest.new.now)) result (kind_row kinds.Update rest.old.now) }
{
    let version = counter_at(rest)?;
    let hosts = Hosts::from_vec(hosts_at(alloc, rest)?);
    Ok(Frame::Update { version, hosts })
}

fn fenced_tx_at(alloc: Global, rest: &mut &[u8]) -> Result<Frame, Fault>
    ensures { Gives (λ x. (x, rest.new.now)) result (kind_row kinds.FencedTx rest.old.now) }
{
    let epoch = counter_at(rest)?;
    let stamp = stamp_at(rest)?;
    let actor = actor_at(alloc, rest)?;
    let ops = StateOps::from_vec(ops_at(alloc, rest)?);
    Ok(Frame::FencedTx {
        epoch,
        stamp,
        actor,
        ops,
    })
}

fn command_frame_at(alloc: Global, kind: CommandKind, rest: &mut &[u8]) -> Result<Frame, Fault>
    ensures { Gives (λ x. (x, rest.new.now)) result (kind_row (kinds.Command kind) rest.old.now) }
{
    let command = command_at(alloc, kind, rest)?;
    Ok(Frame::Command { command })
}

fn answer_frame_at(alloc: Global, kind: AnswerKind, rest: &mut &[u8]) -> Result<Frame, Fault>
    ensures { Gives (λ x. (x, rest.new.now)) result (kind_row (kinds.Answer kind) rest.old.now) }
{
    let answer = answer_at(alloc, kind, rest)?;
    Ok(Frame::Answer { answer })
}

// The fields of a kind.
fn fields_at(alloc: Global, kind: Kind, rest: &mut &[u8]) -> Result<Frame, Fault>
    ensures { Gives (λ x. (x, rest.new.now)) result (kind_row kind rest.old.now) }
{
    match kind {
        Kind::Register => register_at(alloc, rest),
        Kind::Beat => Ok(Frame::Beat {
            member: member_at(rest)?,
        }),
        Kind::Ack => ack_at(rest),
        Kind::Leave => Ok(Frame::Leave {
            member: member_at(rest)?,
        }),
        Kind::Lock => Ok(Frame::Lock {
            version: counter_at(rest)?,
        }),
        Kind::Update => update_at(alloc, rest),
        Kind::Unlock => Ok(Frame::Unlock {
            version: counter_at(rest)?,
        }),
        Kind::Idle => Ok(Frame::Idle),
        Kind::Refused => Ok(Frame::Refused {
            refusal: refusal_at(rest)?,
        }),
        Kind::Gone => Ok(Frame::Gone),
        Kind::FencedTx => fenced_tx_at(alloc, rest),
        Kind::MirrorWrite => mirror_write_at(alloc, rest),
        Kind::MirrorCut => mirror_cut_at(rest),
        Kind::MirrorSync => Ok(Frame::Mirror {
            command: MirrorCommand::Sync,
        }),
        Kind::MirrorDone => Ok(Frame::Mirrored {
            answer: MirrorAnswer::Done,
        }),
        Kind::MirrorFault => Ok(Frame::Mirrored {
            answer: MirrorAnswer::Fault,
        }),
        Kind::Command { kind } => command_frame_at(alloc, kind, rest),
        Kind::Answer { kind } => answer_frame_at(alloc, kind, rest),
    }
}

// A kind and then its fields.
#[tactic(auto, unfolding(crate::specs::Frames::payload))]
fn payload_at(alloc: Global, rest: &mut &[u8]) -> Result<Frame, Fault>
    ensures { Gives (λ x. (x, rest.new.now)) result (payload.at rest.old.now) }
{
    match *rest {
        [] => Err(Fault::Field { left: 0 }),
        [byte, others @ ..] => match Kind::of(*byte) {
            None => Err(Fault::Field { left: rest.len() }),
            Some(kind) => {
                *rest = others;
                fields_at(alloc, kind, rest)
            }
        },
    }
}

// The frame whose kind and fields are exactly these bytes.
#[tactic(auto, unfolding(crate::specs::Frames::whole_frame))]
pub(crate) fn whole_frame(alloc: Global, bytes: &[u8]) -> Result<Frame, Fault>
    ensures { Gives (λ x. x) result (whole_frame bytes.now) }
{
    let mut rest = bytes;
    let frame = payload_at(alloc, &mut rest)?;
    if !rest.is_empty() {
        return Err(Fault::Field { left: rest.len() });
    }
    Ok(frame)
}

// The kind of a frame.
fn kind_of(frame: &Frame) -> Kind
    ensures { result ≡ frame_kind frame.now }
{
    match frame {
        Frame::Register { .. } => Kind::Register,
        Frame::Beat { .. } => Kind::Beat,
        Frame::Ack { .. } => Kind::Ack,
        Frame::Leave { .. } => Kind::Leave,
        Frame::Lock { .. } => Kind::Lock,
        Frame::Update { .. } => Kind::Update,
        Frame::Unlock { .. } => Kind::Unlock,
        Frame::Idle => Kind::Idle,
        Frame::Refused { .. } => Kind::Refused,
        Frame::Gone => Kind::Gone,
        Frame::FencedTx { .. } => Kind::FencedTx,
        Frame::Mirror { command } => mirror_kind(command),
        Frame::Mirrored { answer } => mirrored_kind(*answer),
        Frame::Command { command } => Kind::Command {
            kind: command_kind(command),
        },
        Frame::Answer { answer } => Kind::Answer {
            kind: answer_kind(answer),
        },
    }
}

// Writes the fields of a frame.
fn put_fields(out: &mut Vec<u8>, frame: &Frame) -> Result<(), OutOfMemory>
    requires { FieldsFit frame.now }
    ensures { OnOk result (out.new.items ≡ out.old.items ++ frame_fields frame.now) }
{
    match frame {
        Frame::Register { host } => put_host(out, host),
        Frame::Beat { member } | Frame::Leave { member } => put_member(out, member),
        Frame::Ack {
            member,
            stage,
            version,
        } => {
            put_member(out, member)?;
            put_stage(out, *stage)?;
            put_counter(out, *version)
        }
        Frame::Lock { version } | Frame::Unlock { version } => put_counter(out, *version),
        Frame::Update { version, hosts } => {
            put_counter(out, *version)?;
            put_hosts(out, hosts.as_slice())
        }
        Frame::Refused { refusal } => put_refusal(out, refusal),
        Frame::Idle | Frame::Gone => Ok(()),
        Frame::FencedTx {
            epoch,
            stamp,
            actor,
            ops,
        } => {
            put_counter(out, *epoch)?;
            put_stamp(out, stamp)?;
            put_actor(out, actor)?;
            put_ops(out, ops.as_slice())
        }
        Frame::Mirror { command } => put_mirror(out, command),
        Frame::Mirrored { .. } => Ok(()),
        Frame::Command { command } => put_command_fields(out, command),
        Frame::Answer { answer } => put_answer_fields(out, answer),
    }
}

// Writes the kind and the fields of a frame.
#[tactic(auto, unfolding(crate::specs::Frames::payload))]
pub(crate) fn put_payload(out: &mut Vec<u8>, frame: &Frame) -> Result<(), OutOfMemory>
    requires { payload.Fits frame.now }
    ensures { OnOk result (out.new.items ≡ out.old.items ++ payload.spell frame.now) }
{
    put_tag(out, kind_of(frame).byte())?;
    put_fields(out, frame)
}
