// A command's frame without its length, as a journal keeps it.
ghost use Rattle.std.specs.Prelude.{◌≡◌, ◌++◌, ◌≤◌, length, OnOk};
ghost use Rattle.wire_fields.specs.Gives.{Gives};
ghost use Rattle.wire_fields.specs.Fields.{whole};
ghost use Rattle.frame_wire.specs.Store.{command as command_field, command_row, command_reading, GivesCommand};

use crate::error::FrameError;
use crate::store_command::StoreCommand;
use crate::store_commands::{command_at, command_kind, put_command_fields};
use crate::store_kind::CommandKind;
use lists_and_limits::OutOfMemory;
use std::alloc::Global;
use wire_fields::{Fault, put_tag};

/// Appends the kind and the fields of a command: its frame without its length. After `OutOfMemory` a part of it may
/// have been appended.
#[tactic(auto, unfolding(crate::specs::Store::command))]
pub fn write_command(command: &StoreCommand, into: &mut Vec<u8>) -> Result<(), OutOfMemory>
    requires { command_field.Fits command.now }
    ensures { OnOk result (into.new.items ≡ into.old.items ++ command_field.spell command.now) }
{
    put_tag(into, command_kind(command).byte())?;
    put_command_fields(into, command)
}

// The command whose fields are exactly these bytes.
fn whole_command(alloc: Global, kind: CommandKind, bytes: &[u8]) -> Result<StoreCommand, Fault>
    ensures { Gives (λ x. x) result (whole (command_row kind) bytes.now) }
{
    let mut rest = bytes;
    let command = command_at(alloc, kind, &mut rest)?;
    if !rest.is_empty() {
        return Err(Fault::Field { left: rest.len() });
    }
    Ok(command)
}

/// Reads a command whose kind and fields are exactly these bytes: its frame without its length. `BadKind` if the first
/// byte is no kind of command; `BadField` at the first byte of the first field that fails, or of the first byte behind
/// the last field, counted from the first of these bytes, and at 0 if there is none. It never answers `TooLong`.
pub fn read_command(alloc: Global, bytes: &[u8]) -> Result<StoreCommand, FrameError>
    ensures { GivesCommand result (command_reading bytes.now) }
{
    let [byte, rest @ ..] = bytes else {
        return Err(FrameError::BadField { at: 0 });
    };
    let Some(kind) = CommandKind::of(*byte) else {
        return Err(FrameError::BadKind { at: 0, kind: *byte });
    };
    match whole_command(alloc, kind, rest) {
        Ok(command) => Ok(command),
        Err(Fault::Memory) => Err(FrameError::OutOfMemory),
        Err(Fault::Field { left }) => Err(FrameError::BadField {
            at: bytes.len().saturating_sub(left) as u64,
        }),
    }
}
