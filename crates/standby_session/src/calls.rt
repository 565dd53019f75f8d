// One frame of a session: a call made on the disk, and its answer.
ghost use Rattle.std.specs.Prelude.{◌≡◌, ◌≤◌};
ghost use Rattle.actor_ports.specs.Port.{HasCause};
ghost use Rattle.disk_model.specs.Disk.{Tells};
ghost use Rattle.frame_session.specs.Turns.{Replies};
ghost use Rattle.frame_wire.specs.declared.mirror.MirrorCommand.TheVariants as commands;
ghost use Rattle.standby_core.specs.Telling.{done_bytes};
ghost use Rattle.standby_session.specs.Sessions.{MakesCall};
ghost use Rattle.standby_session.specs.Taking.{TellsFault, Takes, TakesFrame, TakesCause, FaultCause};

use crate::taken::Taken;
use actor_ports::{Conn, PortError};
use disk_model::Disk;
use frame_wire::{Frame, MirrorCommand};
use http_edge::send;
use lists_and_limits::Bytes;

// The bytes of a frame that is MirrorDone, and of one that is MirrorFault.
const DONE: [u8; 5] = [0, 0, 0, 1, 67];

const FAULT: [u8; 5] = [0, 0, 0, 1, 68];

// A write, if it isn't past the end.
#[tactic(auto, using(crate::proofs::Making::no_length, crate::proofs::Making::past_write, crate::proofs::Making::made_write, crate::proofs::Making::failed_write))]
fn make_write<D: Disk>(disk: &mut D, at: u64, bytes: &Bytes) -> Result<bool, PortError>
    ensures made { Tells (MakesCall (commands.Write at bytes.now) result) (D.told disk.old) (D.told disk.new) }
    ensures cause { HasCause (D.disk_faults disk.old) (D.disk_faults disk.new) result }
{
    let len = match disk.len() {
        Err(error) => return Err(error),
        Ok(len) => len,
    };
    if len < at {
        return Ok(false);
    }
    match disk.write_at(at, bytes.as_slice()) {
        Err(error) => Err(error),
        Ok(()) => Ok(true),
    }
}

// A cut, if it isn't past the end.
#[tactic(auto, using(crate::proofs::Making::no_length, crate::proofs::Making::past_cut, crate::proofs::Making::made_cut, crate::proofs::Making::failed_cut))]
fn make_cut<D: Disk>(disk: &mut D, to: u64) -> Result<bool, PortError>
    ensures made { Tells (MakesCall (commands.Cut to) result) (D.told disk.old) (D.told disk.new) }
    ensures cause { HasCause (D.disk_faults disk.old) (D.disk_faults disk.new) result }
{
    let len = match disk.len() {
        Err(error) => return Err(error),
        Ok(len) => len,
    };
    if len < to {
        return Ok(false);
    }
    match disk.cut(to) {
        Err(error) => Err(error),
        Ok(()) => Ok(true),
    }
}

#[tactic(auto, using(crate::proofs::Making::made_sync))]
fn make_sync<D: Disk>(disk: &mut D) -> Result<bool, PortError>
    ensures made { Tells (MakesCall commands.Sync result) (D.told disk.old) (D.told disk.new) }
    ensures cause { HasCause (D.disk_faults disk.old) (D.disk_faults disk.new) result }
{
    match disk.sync() {
        Err(error) => Err(error),
        Ok(()) => Ok(true),
    }
}

// Makes a call, and tells whether it isn't past the end.
fn make_call<D: Disk>(disk: &mut D, command: &MirrorCommand) -> Result<bool, PortError>
    ensures made { Tells (MakesCall command.now result) (D.told disk.old) (D.told disk.new) }
    ensures cause { HasCause (D.disk_faults disk.old) (D.disk_faults disk.new) result }
{
    match command {
        MirrorCommand::Write { at, bytes } => make_write(disk, *at, bytes),
        MirrorCommand::Cut { len } => make_cut(disk, *len),
        MirrorCommand::Sync => make_sync(disk),
    }
}

// Answers that a call was done.
fn tell_done<C: Conn>(conn: &mut C) -> Result<(), PortError>
    ensures replies { Replies (C.read_traffic conn.old) (C.read_traffic conn.new) done_bytes result }
    ensures cause { HasCause (C.read_faults conn.old) (C.read_faults conn.new) result }
{
    send(conn, &DONE)
}

// Answers that a call failed, and tells whether that was written whole.
fn tell_fault<C: Conn>(conn: &mut C) -> bool
    ensures tells { TellsFault result (C.read_traffic conn.old) (C.read_traffic conn.new) }
    ensures cause { C.read_faults conn.old ≤ C.read_faults conn.new }
{
    match send(conn, &FAULT) {
        Ok(()) => true,
        Err(_) => false,
    }
}

// Makes a call, and answers what came of it.
fn take_call<D: Disk, C: Conn>(command: &MirrorCommand, disk: &mut D, conn: &mut C) -> Taken
    ensures takes { Takes command.now (D.told disk.old) (D.told disk.new) (C.read_traffic conn.old) (C.read_traffic conn.new) result }
    ensures link { TakesCause (C.read_faults conn.old) (C.read_faults conn.new) result }
    ensures disk { FaultCause (D.disk_faults disk.old) (D.disk_faults disk.new) result }
{
    match make_call(disk, command) {
        Ok(true) => match tell_done(conn) {
            Ok(()) => Taken::Done,
            Err(error) => Taken::Cut { error },
        },
        Ok(false) => Taken::Foreign,
        Err(PortError::OutOfMemory) => Taken::Cut {
            error: PortError::OutOfMemory,
        },
        Err(PortError::Failed) => Taken::Fault {
            told: tell_fault(conn),
        },
    }
}

// What came of a frame; one that isn't a call is foreign.
#[tactic(auto, using(crate::proofs::Answering::other_frame))]
fn take_frame<D: Disk, C: Conn>(frame: &Frame, disk: &mut D, conn: &mut C) -> Taken
    ensures takes { TakesFrame frame.now (D.told disk.old) (D.told disk.new) (C.read_traffic conn.old) (C.read_traffic conn.new) result }
    ensures link { TakesCause (C.read_faults conn.old) (C.read_faults conn.new) result }
    ensures disk { FaultCause (D.disk_faults disk.old) (D.disk_faults disk.new) result }
{
    match frame {
        Frame::Mirror { command } => take_call(command, disk, conn),
        _ => Taken::Foreign,
    }
}

/// What came of the next frame, which isn't needed any more.
pub(crate) fn take_next<D: Disk, C: Conn>(frame: Frame, disk: &mut D, conn: &mut C) -> Taken
    ensures takes { TakesFrame frame (D.told disk.old) (D.told disk.new) (C.read_traffic conn.old) (C.read_traffic conn.new) result }
    ensures link { TakesCause (C.read_faults conn.old) (C.read_faults conn.new) result }
    ensures disk { FaultCause (D.disk_faults disk.old) (D.disk_faults disk.new) result }
{
    take_frame(&frame, disk, conn)
}
