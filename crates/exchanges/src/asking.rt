// One exchange with the store.
ghost use Rattle.std.specs.Prelude.{◌≡◌, ◌<◌, List};
ghost use Rattle.actor_ports.specs.Traffic.{TakesBack, Counts};
ghost use Rattle.frame_wire.specs.Frames.{frame_bytes};
ghost use Rattle.exchanges.specs.Exchanges.{Exchange, Dialling};
ghost use Rattle.exchanges.specs.Replies.{place_at};
ghost use Rattle.exchanges.specs.Asked.{IsFrameAsked, IsStoreExchange, IsFencedExchange};

use crate::answer::answer_in;
use crate::frame_exchanging::exchange_frame;
use crate::store_end::StoreEnd;
use crate::text::command_text;
use actor_names::{ActorKey, Address};
use actor_ports::{Dial, PortError};
use frame_wire::{Frame, Stamp, StateOps, StoreAnswer, StoreCommand, frame_law};
use std::alloc::Global;

// Gives the link back. Another exchange may be made over it, if a whole frame was read: then nothing of it is left.
fn give_back<L: Dial>(dialler: &mut L, link: L::Link, is_whole: bool)
    requires { 0 < L.room dialler.old }
    ensures takes_back { TakesBack (L.dialled dialler.old) (L.dialled dialler.new) (L.Link.read_traffic link) }
    ensures cause { Counts (L.dial_faults dialler.old) (L.dial_faults dialler.new) (L.Link.read_faults link) }
{
    if is_whole {
        dialler.keep(link);
    } else {
        dialler.done(link);
    }
}

// One exchange of this text, which is the frame's.
fn send_text<L: Dial>(
    alloc: Global,
    dialler: &mut L,
    at: &Address,
    asked: &Frame,
    text: Vec<u8>,
) -> Result<StoreAnswer, StoreEnd>
    requires { text.items ≡ frame_bytes asked.now }
    ensures { (xs : List Exchange)
        × IsFrameAsked asked.now (place_at at.now) xs result
        × Dialling xs (L.dialled dialler.old) (L.dialled dialler.new) (L.dial_faults dialler.old) (L.dial_faults dialler.new) }
{
    frame_law();
    let mut link = match dialler.dial(at.ip, at.port) {
        Ok(link) => link,
        Err(PortError::Failed) => return Err(StoreEnd::Fault),
        Err(PortError::OutOfMemory) => return Err(StoreEnd::OutOfMemory),
    };
    let got = exchange_frame(alloc, text.as_slice(), &mut link);
    give_back(dialler, link, got.is_ok());
    answer_in(asked, got)
}

// One exchange of this frame. One that has no spelling is answered `OutOfMemory`, and nothing is dialled.
fn send_frame<L: Dial>(
    alloc: Global,
    dialler: &mut L,
    at: &Address,
    asked: &Frame,
) -> Result<StoreAnswer, StoreEnd>
    ensures { (xs : List Exchange)
        × IsFrameAsked asked.now (place_at at.now) xs result
        × Dialling xs (L.dialled dialler.old) (L.dialled dialler.new) (L.dial_faults dialler.old) (L.dial_faults dialler.new) }
{
    match command_text(alloc, asked) {
        Err(_) => Err(StoreEnd::OutOfMemory),
        Ok(text) => send_text(alloc, dialler, at, asked, text),
    }
}

/// Dials the store at the address, sends it the command, reads its answer and gives the link back. If the dial failed,
/// the answer is `Fault`. A command that has no frame is answered `OutOfMemory`, and nothing is dialled.
pub fn ask_store<L: Dial>(
    alloc: Global,
    dialler: &mut L,
    at: &Address,
    command: StoreCommand,
) -> Result<StoreAnswer, StoreEnd>
    ensures { (xs : List Exchange)
        × IsStoreExchange command (place_at at.now) xs result
        × Dialling xs (L.dialled dialler.old) (L.dialled dialler.new) (L.dial_faults dialler.old) (L.dial_faults dialler.new) }
{
    let asked = Frame::Command { command };
    send_frame(alloc, dialler, at, &asked)
}

/// The same with a transaction by a writer of this epoch, which is at most 2^62; its answer has the readings of one to a
/// transaction. One that has no frame, also for its epoch, is answered `OutOfMemory`, and nothing is dialled.
pub fn ask_fenced<L: Dial>(
    alloc: Global,
    dialler: &mut L,
    at: &Address,
    epoch: u64,
    stamp: Stamp,
    actor: ActorKey,
    ops: StateOps,
) -> Result<StoreAnswer, StoreEnd>
    ensures { (xs : List Exchange)
        × IsFencedExchange epoch stamp actor ops (place_at at.now) xs result
        × Dialling xs (L.dialled dialler.old) (L.dialled dialler.new) (L.dial_faults dialler.old) (L.dial_faults dialler.new) }
{
    let asked = Frame::FencedTx {
        epoch,
        stamp,
        actor,
        ops,
    };
    send_frame(alloc, dialler, at, &asked)
}
