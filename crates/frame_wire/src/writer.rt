// Writes frames at the end of some bytes.
ghost use Rattle.std.specs.Prelude.{◌≡◌, ◌≤◌, ◌<◌, ◌++◌, ◌∷◌, [], length, drop, IfOk, IfErr, OnOk, OnErr};
ghost use Rattle.std.specs.Int.{w32, to_be_bytes};
ghost use Rattle.wire_fields.specs.Fields.{sized, number32};
ghost use Rattle.frame_wire.specs.Frames.{payload, frame_bytes, most_payload};
ghost use Rattle.frame_wire.specs.Streams.{WriteCause};

use crate::error::FrameError;
use crate::fields::put_payload;
use crate::frame::Frame;
use crate::look::MOST_PAYLOAD;
use lists_and_limits::OutOfMemory;

// Puts a length over the first four bytes.
fn set_length(bytes: &mut Vec<u8>, n: u32)
    requires { 4 ≤ length bytes.old.items }
    ensures { bytes.new.items ≡ to_be_bytes w32 n ++ drop 4 bytes.old.items }
{
    let [a, b, c, d] = n.to_be_bytes();
    bytes[0] = a;
    bytes[1] = b;
    bytes[2] = c;
    bytes[3] = d;
}

// Appends four bytes, and then the kind and the fields of a frame.
fn put_behind_room(into: &mut Vec<u8>, frame: &Frame) -> Result<(), OutOfMemory>
    requires empty { into.old.items ≡ [] }
    requires fits { payload.Fits frame.now }
    ensures { OnOk result (into.new.items ≡ 0 ∷ 0 ∷ 0 ∷ 0 ∷ payload.spell frame.now) }
{
    into.extend_from_slice(&[0, 0, 0, 0])?;
    put_payload(into, frame)
}

// Writes the spelling of a frame into bytes that are empty: its fields are copied only there.
#[tactic(auto, unfolding(wire_fields::specs::Fields::number32))]
fn write_first(frame: &Frame, into: &mut Vec<u8>) -> Result<(), FrameError>
    requires empty { into.old.items ≡ [] }
    requires fits { payload.Fits frame.now }
    ensures written { OnOk result (into.new.items ≡ frame_bytes frame.now) }
    ensures short { OnOk result (length (payload.spell frame.now) ≤ most_payload) }
    ensures cause { IfErr result (λ e. WriteCause frame.now e) }
    ensures same { OnErr result (into.new.items ≡ []) }
{
    if put_behind_room(into, frame).is_err() {
        into.clear();
        return Err(FrameError::OutOfMemory);
    }
    let n = into.len() - 4;
    if n > MOST_PAYLOAD as usize {
        into.clear();
        return Err(FrameError::TooLong { n: n as u64 });
    }
    set_length(into, n as u32);
    Ok(())
}

/// Appends the spelling of a frame, all or nothing. The frame's fields must have the forms and ranges of the format and
/// fit their lengths and counts. `TooLong` if it has more than 5,242,880 bytes behind its length. Into bytes that are
/// empty each field is copied only once.
pub fn write_frame(frame: &Frame, into: &mut Vec<u8>) -> Result<(), FrameError>
    requires { payload.Fits frame.now }
    ensures written { OnOk result (into.new.items ≡ into.old.items ++ frame_bytes frame.now) }
    ensures short { OnOk result (length (payload.spell frame.now) ≤ most_payload) }
    ensures cause { IfErr result (λ e. WriteCause frame.now e) }
    ensures same { OnErr result (into.new.items ≡ into.old.items) }
{
    if into.is_empty() {
        return write_first(frame, into);
    }
    let mut bytes = Vec::new(*into.allocator());
    write_first(frame, &mut bytes)?;
    if into.extend_from_slice(bytes.as_slice()).is_err() {
        return Err(FrameError::OutOfMemory);
    }
    Ok(())
}
