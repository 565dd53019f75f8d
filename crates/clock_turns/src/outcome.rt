// What a timer's turn comes to.
ghost use Rattle.std.specs.Prelude.{◌≡◌};
ghost use Rattle.clock_turns.specs.Timers.{is_there};
ghost use Rattle.clock_turns.specs.Ends.{spent_or, got_end, over_end, refused_end, got_fault};

use crate::ends::TickEnd;
use http_edge::{EdgeError, HttpResponse};
use part_core::PartReply;
use step_gate::Spent;
use timer_book::TimerReply;

/// What a timer's turn came to.
#[derive(Drop)]
pub(crate) struct Outcome {
    /// Whether a call began.
    pub(crate) begun: bool,
    /// Whether the connection to the application failed.
    pub(crate) faulted: bool,
    /// What ends the tick, if something does.
    pub(crate) end: Option<TickEnd>,
}

/// Whether a Started found the registration.
pub(crate) fn is_there(said: &Result<TimerReply, Spent>) -> bool
    ensures { result ≡ is_there said.now }
{
    match said {
        Ok(TimerReply::Started { there }) => *there,
        Ok(_) => false,
        Err(_) => false,
    }
}

/// That the gate took no entry, or else this end.
pub(crate) fn spent_or(said: &Result<TimerReply, Spent>, end: Option<TickEnd>) -> Option<TickEnd>
    ensures { result ≡ spent_or said.now end }
{
    match said {
        Err(spent) => Some(TickEnd::Spent { count: spent.count }),
        Ok(_) => end,
    }
}

// Whether there was no memory for what was to be said to the application.
fn got_end(got: &Option<Result<HttpResponse, EdgeError>>) -> Option<TickEnd>
    ensures { result ≡ got_end got.now }
{
    match got {
        None => None,
        Some(Ok(_)) => None,
        Some(Err(EdgeError::OutOfMemory)) => Some(TickEnd::OutOfMemory),
        Some(Err(_)) => None,
    }
}

/// What ends the tick after the End of a turn.
pub(crate) fn over_end(
    said: &Result<PartReply, Spent>,
    got: &Option<Result<HttpResponse, EdgeError>>,
) -> Option<TickEnd>
    ensures { result ≡ over_end said.now got.now }
{
    match said {
        Err(spent) => Some(TickEnd::Spent { count: spent.count }),
        Ok(PartReply::Stopped) => Some(TickEnd::Stopped),
        Ok(_) => got_end(got),
    }
}

/// What ends the tick if this reply begins no turn.
pub(crate) fn refused_end(reply: &PartReply) -> Option<TickEnd>
    ensures { result ≡ refused_end reply.now }
{
    match reply {
        PartReply::Spent { count } => Some(TickEnd::Spent { count: *count }),
        PartReply::Stopped => Some(TickEnd::Stopped),
        PartReply::OutOfMemory => Some(TickEnd::OutOfMemory),
        _ => None,
    }
}

/// Whether the dial or the connection to the application failed.
pub(crate) fn got_fault(got: &Option<Result<HttpResponse, EdgeError>>) -> bool
    ensures { result ≡ got_fault got.now }
{
    match got {
        None => false,
        Some(Ok(_)) => false,
        Some(Err(EdgeError::ConnFault)) => true,
        Some(Err(_)) => false,
    }
}
