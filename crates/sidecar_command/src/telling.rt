// What is printed of the end.
ghost use Rattle.std.specs.Prelude.{◌≡◌, ◌++◌, OnOk};
ghost use Rattle.sidecar_command.specs.Telling.{number_text, silent_line, refused_line, stop_line, end_text};

use crate::ends::SidecarEnd;
use itoa::Buffer;
use round_core::PlaceReply;
use sidecar_server::StopCause;
use sidecar_start::tell_end;
use std::alloc::AllocError;

// Appends a word and a number behind it.
fn push_number(text: &mut Vec<u8>, front: &[u8], n: u64) -> Result<(), AllocError>
    ensures { OnOk result (text.new.items ≡ text.old.items ++ number_text front.now n) }
{
    let mut buffer = Buffer::new();
    text.extend_from_slice(front)?;
    text.extend_from_slice(buffer.format(n).as_bytes())
}

// Appends the line of a silence.
fn push_silent(text: &mut Vec<u8>, start: u64, now: u64) -> Result<(), AllocError>
    ensures { OnOk result (text.new.items ≡ text.old.items ++ silent_line start now) }
{
    push_number(text, b"stopped ", start)?;
    push_number(text, b" ", now)?;
    text.extend_from_slice(b"\n")
}

// Appends the line of a refusal.
fn push_refused(text: &mut Vec<u8>, front: &[u8], n: u64) -> Result<(), AllocError>
    ensures { OnOk result (text.new.items ≡ text.old.items ++ refused_line front.now n) }
{
    push_number(text, front, n)?;
    text.extend_from_slice(b"\n")
}

// Appends the line of a stop.
fn push_stop(text: &mut Vec<u8>, cause: &StopCause) -> Result<(), AllocError>
    ensures { OnOk result (text.new.items ≡ text.old.items ++ stop_line cause.now) }
{
    match cause {
        StopCause::Silent { start, now } => push_silent(text, *start, *now),
        StopCause::Refused { reply } => match reply {
            PlaceReply::StaleBoot { greatest } => {
                push_refused(text, b"refused stale-boot ", *greatest)
            }
            PlaceReply::NotMember { greatest } => {
                push_refused(text, b"refused not-member ", *greatest)
            }
            PlaceReply::SpacesFull { spaces } => {
                push_refused(text, b"refused spaces-full ", u64::from(*spaces))
            }
            PlaceReply::Full { members, nodes: _ } => {
                push_refused(text, b"refused full ", u64::from(*members))
            }
            _ => Ok(()),
        },
    }
}

/// Appends the line that is printed of the end: one for a stop, for the application and for the store; else nothing.
pub fn push_end(text: &mut Vec<u8>, end: &SidecarEnd) -> Result<(), AllocError>
    ensures { OnOk result (text.new.items ≡ text.old.items ++ end_text end.now) }
{
    match end {
        SidecarEnd::Unstarted { end } => tell_end(end, text),
        SidecarEnd::Stopped { cause } => push_stop(text, cause),
        _ => Ok(()),
    }
}
