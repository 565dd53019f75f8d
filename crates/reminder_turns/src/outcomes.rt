// What a turn comes to.
ghost use Rattle.std.specs.Prelude.{◌≡◌};
ghost use Rattle.reminder_turns.specs.Outcomes.{reply_end, said_end, draw_end, undrawn_end, app_end, is_fault, is_answered, begun_in, fault_in, owes, is_owed, turned_end};

use crate::ends::TickEnd;
use crate::results::Turned;
use crate::standing::or_end;
use http_edge::{EdgeError, HttpResponse};
use part_core::PartReply;
use step_gate::Spent;

// The end of the call that a part's reply brings, if it brings one.
fn reply_end(reply: &PartReply) -> Option<TickEnd>
    ensures { result ≡ reply_end reply.now }
{
    match reply {
        PartReply::Spent { count } => Some(TickEnd::Spent { count: *count }),
        PartReply::Stopped => Some(TickEnd::Stopped),
        PartReply::OutOfMemory => Some(TickEnd::OutOfMemory),
        _ => None,
    }
}

// The same, if the part's gate took no entry.
fn said_end(said: &Result<PartReply, Spent>) -> Option<TickEnd>
    ensures { result ≡ said_end said.now }
{
    match said {
        Ok(reply) => reply_end(reply),
        Err(spent) => Some(TickEnd::Spent { count: spent.count }),
    }
}

// What a reply to a Draw ends that drew no number.
fn draw_end(reply: &PartReply) -> TickEnd
    ensures { result ≡ draw_end reply.now }
{
    match reply {
        PartReply::Spent { count } => TickEnd::Spent { count: *count },
        PartReply::Stopped => TickEnd::Stopped,
        _ => TickEnd::OutOfMemory,
    }
}

/// The same, if the part's gate took no Draw.
pub(crate) fn undrawn_end(said: &Result<PartReply, Spent>) -> TickEnd
    ensures { result ≡ undrawn_end said.now }
{
    match said {
        Ok(reply) => draw_end(reply),
        Err(spent) => TickEnd::Spent { count: spent.count },
    }
}

// Whether there was no memory for the exchange with the application.
fn app_end(got: &Result<HttpResponse, EdgeError>) -> Option<TickEnd>
    ensures { result ≡ app_end got.now }
{
    match got {
        Err(EdgeError::OutOfMemory) => Some(TickEnd::OutOfMemory),
        _ => None,
    }
}

// Whether the dial or the connection to the application failed.
fn is_fault(got: &Result<HttpResponse, EdgeError>) -> bool
    ensures { result ≡ is_fault got.now }
{
    match got {
        Err(EdgeError::ConnFault) => true,
        _ => false,
    }
}

// Whether the application was reached.
fn is_answered(got: &Result<HttpResponse, EdgeError>) -> bool
    ensures { result ≡ is_answered got.now }
{
    match got {
        Err(EdgeError::ConnFault) => false,
        Err(EdgeError::OutOfMemory) => false,
        _ => true,
    }
}

/// How many calls began: one or none.
pub(crate) fn begun_in(turned: &Turned) -> u32
    ensures { result ≡ begun_in turned.now }
{
    match turned {
        Turned::Called { .. } => 1,
        Turned::Refused { .. } => 0,
    }
}

/// Whether the connection to the application failed.
pub(crate) fn fault_in(turned: &Turned) -> bool
    ensures { result ≡ fault_in turned.now }
{
    match turned {
        Turned::Called { got, .. } => is_fault(got),
        Turned::Refused { .. } => false,
    }
}

// Whether a turn with this answer and this End owes a report.
fn owes(got: &Result<HttpResponse, EdgeError>, ended: &Result<PartReply, Spent>) -> bool
    ensures { result ≡ owes got.now ended.now }
{
    match ended {
        Ok(_) => is_answered(got),
        Err(_) => false,
    }
}

/// Whether the turn owes a report.
pub(crate) fn is_owed(turned: &Turned) -> bool
    ensures { result ≡ is_owed turned.now }
{
    match turned {
        Turned::Called { got, ended } => owes(got, ended),
        Turned::Refused { .. } => false,
    }
}

/// What the turn ends, its report left aside.
pub(crate) fn turned_end(turned: &Turned) -> Option<TickEnd>
    ensures { result ≡ turned_end turned.now }
{
    match turned {
        Turned::Called { got, ended } => or_end(said_end(ended), app_end(got)),
        Turned::Refused { said } => said_end(said),
    }
}
