// The frame of a turn, sent, and the frame that comes back.
ghost use Rattle.std.specs.Prelude.{◌≡◌, ◌<◌, ◌≤◌, ◌^◌, length, Some, None, IfOk, OnOk, IfSome};
ghost use Rattle.http_edge.specs.Carry.{Carried, Over};
ghost use Rattle.part_model.specs.Acks.{stage_rank};
ghost use Rattle.member_core.specs.Answers.{collect_answer};
ghost use Rattle.frame_wire.specs.declared.frame.Frame.TheVariants as frames;
ghost use Rattle.frame_wire.specs.Frames.{payload, frame_bytes};
ghost use Rattle.exchanges.specs.FrameExchanges.{ExchangesFrame, EndCause};
ghost use Rattle.placement_beats.specs.Answers.{receipts_of};
ghost use Rattle.placement_beats.specs.Beats.{is_same_ack, is_acked, new_ack, frame_of, heartbeat_frame, IsShort};

use crate::answers::receipts_of;
use actor_ports::Conn;
use exchanges::{FrameEnd, exchange_frame};
use frame_wire::{Frame, write_frame};
use lists_and_limits::OutOfMemory;
use member_core::{Ack, CollectError, collect};
use part_core::PartReply;
use place_table::{AckStage, HostInfo};
use std::alloc::Global;
use step_gate::Spent;

// The place of the stage in the order of stages.
fn rank(stage: AckStage) -> u8
    ensures { result ≡ stage_rank stage }
{
    match stage {
        AckStage::Lock => 0,
        AckStage::Update => 1,
        AckStage::Unlock => 2,
    }
}

fn is_same_ack(a: Ack, b: Ack) -> bool
    ensures { result ≡ is_same_ack a b }
{
    a.version == b.version && rank(a.stage) == rank(b.stage)
}

// Whether this acknowledgement was sent last.
fn is_acked(acked: Option<Ack>, ack: Ack) -> bool
    ensures { result ≡ is_acked acked ack }
{
    match acked {
        None => false,
        Some(last) => is_same_ack(last, ack),
    }
}

// The acknowledgement to be sent, if it differs from the last one.
fn new_ack(acked: Option<Ack>, answer: Result<Option<Ack>, CollectError>) -> Option<Ack>
    requires { IsShort answer }
    ensures ack { result ≡ new_ack acked answer }
    ensures version { IfSome result (λ a. a.version ≤ 2 ^ 62) }
{
    match answer {
        Ok(Some(ack)) => {
            if is_acked(acked, ack) {
                None
            } else {
                Some(ack)
            }
        }
        Ok(None) => None,
        Err(_) => None,
    }
}

// The frame of a turn without an acknowledgement.
fn greeting(
    alloc: Global,
    host: &HostInfo,
    answer: Result<Option<Ack>, CollectError>,
) -> Result<Frame, OutOfMemory>
    requires { payload.Fits (frames.Register host.now) }
    ensures frame { IfOk result (λ frame. frame ≡ frame_of host.now None answer) }
    ensures fits { IfOk result payload.Fits }
{
    match answer {
        Ok(Some(_)) => Ok(Frame::Beat {
            member: host.member,
        }),
        Ok(None) => Ok(Frame::Register {
            host: host.copy(alloc)?,
        }),
        Err(_) => Ok(Frame::Register {
            host: host.copy(alloc)?,
        }),
    }
}

// The frame of a turn.
fn frame_of(
    alloc: Global,
    host: &HostInfo,
    ack: Option<Ack>,
    answer: Result<Option<Ack>, CollectError>,
) -> Result<Frame, OutOfMemory>
    requires host { payload.Fits (frames.Register host.now) }
    requires version { IfSome ack (λ a. a.version ≤ 2 ^ 62) }
    ensures frame { IfOk result (λ frame. frame ≡ frame_of host.now ack answer) }
    ensures fits { IfOk result payload.Fits }
{
    match ack {
        Some(ack) => Ok(Frame::Ack {
            member: host.member,
            stage: ack.stage,
            version: ack.version,
        }),
        None => greeting(alloc, host, answer),
    }
}

/// The spelling of a frame. One that is too long for the format is answered as if there were no memory; the frames of
/// this crate never are.
pub(crate) fn text_of(alloc: Global, frame: &Frame) -> Result<Vec<u8>, OutOfMemory>
    requires { payload.Fits frame.now }
    ensures { IfOk result (λ text. text.items ≡ frame_bytes frame.now) }
{
    let mut text = Vec::new(alloc);
    match write_frame(frame, &mut text) {
        Ok(()) => Ok(text),
        Err(_) => Err(OutOfMemory),
    }
}

// What the receipts in the answers justify.
fn answer_of(
    alloc: Global,
    host: &HostInfo,
    ticks: &[Result<PartReply, Spent>],
) -> Result<Result<Option<Ack>, CollectError>, OutOfMemory>
    requires { 0 < length (receipts_of ticks.now) }
    ensures answer { IfOk result (λ answer. answer ≡ collect_answer host.now.member (receipts_of ticks.now)) }
    ensures version { IfOk result IsShort }
{
    match receipts_of(alloc, ticks) {
        Err(_) => Err(OutOfMemory),
        Ok(receipts) => {
            let _version = receipts[0].version();
            Ok(collect(&host.member, receipts.as_slice()))
        }
    }
}

/// Sends a frame and reads one.
pub(crate) fn send_frame<C: Conn>(
    alloc: Global,
    frame: &Frame,
    conn: &mut C,
) -> Result<Frame, FrameEnd>
    requires { payload.Fits frame.now }
    ensures exchanges { (c : Carried) × Over (C.read_traffic conn.old) (C.read_traffic conn.new) c × ExchangesFrame (frame_bytes frame.now) c (C.read_traffic conn.old) (C.read_traffic conn.new) result }
    ensures cause { EndCause (C.read_faults conn.old) (C.read_faults conn.new) result }
{
    match text_of(alloc, frame) {
        Err(_) => Err(FrameEnd::OutOfMemory),
        Ok(text) => exchange_frame(alloc, text.as_slice(), conn),
    }
}

/// What was sent and what came back.
#[derive(Drop)]
pub(crate) struct Beat {
    /// The acknowledgement that was sent, if one was.
    pub(crate) ack: Option<Ack>,
    /// The frame read.
    pub(crate) got: Result<Frame, FrameEnd>,
}

// Sends the frame of a turn by this answer to its receipts, and reads one frame.
fn send_beat<C: Conn>(
    alloc: Global,
    host: &HostInfo,
    acked: Option<Ack>,
    answer: Result<Option<Ack>, CollectError>,
    conn: &mut C,
) -> Beat
    requires host { payload.Fits (frames.Register host.now) }
    requires version { IsShort answer }
    ensures ack { OnOk result.got (result.ack ≡ new_ack acked answer) }
    ensures exchanges { (c : Carried) × Over (C.read_traffic conn.old) (C.read_traffic conn.new) c × ExchangesFrame (frame_bytes (heartbeat_frame host.now acked answer)) c (C.read_traffic conn.old) (C.read_traffic conn.new) result.got }
    ensures cause { EndCause (C.read_faults conn.old) (C.read_faults conn.new) result.got }
{
    let ack = new_ack(acked, answer);
    match frame_of(alloc, host, ack, answer) {
        Err(_) => Beat {
            ack: None,
            got: Err(FrameEnd::OutOfMemory),
        },
        Ok(frame) => {
            let got = send_frame(alloc, &frame, conn);
            Beat { ack, got }
        }
    }
}

/// Sends the frame of a turn whose Ticks were answered so, and reads one frame.
pub(crate) fn heartbeat<C: Conn>(
    alloc: Global,
    host: &HostInfo,
    acked: Option<Ack>,
    ticks: &[Result<PartReply, Spent>],
    conn: &mut C,
) -> Beat
    requires host { payload.Fits (frames.Register host.now) }
    requires some { 0 < length (receipts_of ticks.now) }
    ensures ack { OnOk result.got (result.ack ≡ new_ack acked (collect_answer host.now.member (receipts_of ticks.now))) }
    ensures exchanges { (c : Carried) × Over (C.read_traffic conn.old) (C.read_traffic conn.new) c × ExchangesFrame (frame_bytes (heartbeat_frame host.now acked (collect_answer host.now.member (receipts_of ticks.now)))) c (C.read_traffic conn.old) (C.read_traffic conn.new) result.got }
    ensures cause { EndCause (C.read_faults conn.old) (C.read_faults conn.new) result.got }
{
    match answer_of(alloc, host, ticks) {
        Err(_) => Beat {
            ack: None,
            got: Err(FrameEnd::OutOfMemory),
        },
        Ok(answer) => send_beat(alloc, host, acked, answer, conn),
    }
}
