// The boot that the store draws.
ghost use Rattle.std.specs.Prelude.{◌≡◌, ◌≤◌, List, IfOk, Ok};
ghost use Rattle.frame_wire.specs.Frames.{frame_bytes, payload};
ghost use Rattle.exchanges.specs.Exchanges.{Exchange, Dialling};
ghost use Rattle.exchanges.specs.Replies.{place_at};
ghost use Rattle.sidecar_start.specs.Tries.{IsTry, IsRun};
ghost use Rattle.sidecar_start.specs.Booting.{boot_frame, boot_in, BootCarries};

use crate::end::StartEnd;
use crate::fits::fits_place;
use crate::words::StartWords;
use actor_ports::{Clock, Dial, PortError};
use exchanges::{FrameEnd, exchange_frame};
use frame_wire::{Frame, StoreAnswer, StoreCommand, frame_law, write_frame};
use lists_and_limits::OutOfMemory;
use std::alloc::Global;
use std::sync::Wait;

/// How long the start waits before it tries again, in milliseconds.
pub(crate) const RETRY_MS: u64 = 1000;

/// The frame that asks for a boot.
#[tactic(auto, unfolding(frame_wire::specs::Frames::payload))]
fn boot_frame(words: &StartWords) -> Frame
    ensures frame { result ≡ boot_frame words.now }
    ensures fits { payload.Fits result }
{
    fits_place(&words.space, &words.node);
    Frame::Command {
        command: StoreCommand::Boot {
            space: words.space.copy(),
            node: words.node.copy(),
        },
    }
}

/// The spelling of the frame that asks for a boot.
fn boot_text(alloc: Global, words: &StartWords) -> Result<Vec<u8>, OutOfMemory>
    ensures { IfOk result (λ text. text.items ≡ frame_bytes (boot_frame words.now)) }
{
    let frame = boot_frame(words);
    let mut text = Vec::new(alloc);
    match write_frame(&frame, &mut text) {
        Ok(()) => Ok(text),
        Err(_) => Err(OutOfMemory),
    }
}

/// What the store's answer comes to.
fn answer_in(answer: &StoreAnswer) -> Result<Option<u64>, StartEnd>
    ensures { result ≡ boot_in (Ok (Frame.Answer answer.now)) }
{
    match answer {
        StoreAnswer::Booted { boot } => Ok(Some(*boot)),
        StoreAnswer::Refused { refusal } => Err(StartEnd::StoreRefused {
            code: refusal.code(),
        }),
        _ => Ok(None),
    }
}

/// What the store's frame says, or that none was read.
fn boot_in(read: &Result<Frame, FrameEnd>) -> Result<Option<u64>, StartEnd>
    ensures { result ≡ boot_in read.now }
{
    match read {
        Ok(Frame::Answer { answer }) => answer_in(answer),
        Ok(_) => Ok(None),
        Err(FrameEnd::NoFrame { .. }) => Ok(None),
        Err(FrameEnd::ConnFault) => Ok(None),
        Err(FrameEnd::OutOfMemory) => Err(StartEnd::OutOfMemory),
    }
}

/// Asks the store once for a boot.
fn try_boot<L: Dial>(
    alloc: Global,
    dialler: &mut L,
    words: &StartWords,
    text: &[u8],
) -> Result<Option<u64>, StartEnd>
    requires { text.now ≡ frame_bytes (boot_frame words.now) }
    ensures { (xs : List Exchange)
        × IsTry (BootCarries (boot_frame words.now)) (place_at words.now.store_at) xs result
        × Dialling xs (L.dialled dialler.old) (L.dialled dialler.new) (L.dial_faults dialler.old) (L.dial_faults dialler.new) }
{
    frame_law();
    let mut link = match dialler.dial(words.store_at.ip, words.store_at.port) {
        Ok(link) => link,
        Err(PortError::Failed) => return Err(StartEnd::DialFault),
        Err(PortError::OutOfMemory) => return Err(StartEnd::OutOfMemory),
    };
    let read = exchange_frame(alloc, text, &mut link);
    dialler.done(link);
    boot_in(&read)
}

/// Asks the store for a boot, with this text, until it draws one or refuses.
fn draw_with<R: Wait, L: Dial, K: Clock>(
    rt: &R,
    alloc: Global,
    dialler: &mut L,
    clock: &mut K,
    words: &StartWords,
    text: &[u8],
) -> Result<u64, StartEnd>
    requires { text.now ≡ frame_bytes (boot_frame words.now) }
    ensures draws { (xs : List Exchange)
        × IsRun (BootCarries (boot_frame words.now)) (place_at words.now.store_at) xs result
        × Dialling xs (L.dialled dialler.old) (L.dialled dialler.new) (L.dial_faults dialler.old) (L.dial_faults dialler.new) }
    ensures clock { K.shown clock.old ≤ K.shown clock.new }
{
    for _ in rt.forever() {
        match try_boot(alloc, dialler, words, text) {
            Err(end) => return Err(end),
            Ok(Some(boot)) => return Ok(boot),
            Ok(None) => clock.pause(RETRY_MS),
        }
    }
    unreachable!()
}

/// Asks the store for a boot until it draws one or refuses. A link that failed, or an answer without a reading, is tried
/// again after a pause.
pub(crate) fn draw_boot<R: Wait, L: Dial, K: Clock>(
    rt: &R,
    alloc: Global,
    dialler: &mut L,
    clock: &mut K,
    words: &StartWords,
) -> Result<u64, StartEnd>
    ensures draws { (xs : List Exchange)
        × IsRun (BootCarries (boot_frame words.now)) (place_at words.now.store_at) xs result
        × Dialling xs (L.dialled dialler.old) (L.dialled dialler.new) (L.dial_faults dialler.old) (L.dial_faults dialler.new) }
    ensures clock { K.shown clock.old ≤ K.shown clock.new }
{
    match boot_text(alloc, words) {
        Err(_) => Err(StartEnd::OutOfMemory),
        Ok(text) => draw_with(rt, alloc, dialler, clock, words, text.as_slice()),
    }
}
