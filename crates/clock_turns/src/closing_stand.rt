// Where a turn stands after a step.
ghost use Rattle.std.specs.Prelude.{◌≡◌};
ghost use Rattle.clock_turns.specs.Closings.{is_fault, told_end, closed_end, closing_end, after_closing, taken_end};

use crate::ends::TickEnd;
use http_edge::{EdgeError, HttpResponse};
use part_core::PartReply;
use step_gate::Spent;
use timer_book::TimerReply;

/// Where a turn stands: it goes on at this part, or it is over.
#[derive(Drop)]
pub(crate) enum Stand {
    On { part: usize },
    Over { end: TickEnd },
}

/// Whether the dial or the connection to the application failed.
pub(crate) fn is_fault(got: &Result<HttpResponse, EdgeError>) -> bool
    ensures { result ≡ is_fault got.now }
{
    match got {
        Err(EdgeError::ConnFault) => true,
        Err(_) => false,
        Ok(_) => false,
    }
}

// Whether there was no memory for what was to be said to the application.
fn told_end(got: &Result<HttpResponse, EdgeError>) -> Option<TickEnd>
    ensures { result ≡ told_end got.now }
{
    match got {
        Err(EdgeError::OutOfMemory) => Some(TickEnd::OutOfMemory),
        Err(_) => None,
        Ok(_) => None,
    }
}

// What ends a turn once a part has heard that a deactivation is over.
fn closed_end(
    said: &Result<PartReply, Spent>,
    got: &Result<HttpResponse, EdgeError>,
) -> Option<TickEnd>
    ensures { result ≡ closed_end said.now got.now }
{
    match said {
        Err(spent) => Some(TickEnd::Spent { count: spent.count }),
        Ok(PartReply::Stopped) => Some(TickEnd::Stopped),
        Ok(_) => told_end(got),
    }
}

/// What ends a turn after a deactivation.
pub(crate) fn closing_end(
    dropped: &Result<TimerReply, Spent>,
    said: &Result<PartReply, Spent>,
    got: &Result<HttpResponse, EdgeError>,
) -> Option<TickEnd>
    ensures { result ≡ closing_end dropped.now said.now got.now }
{
    match dropped {
        Err(spent) => Some(TickEnd::Spent { count: spent.count }),
        Ok(_) => closed_end(said, got),
    }
}

/// Where the turn stands after a deactivation on this part.
pub(crate) fn after_closing(part: usize, end: Option<TickEnd>) -> Stand
    ensures { result ≡ after_closing part end }
{
    match end {
        None => Stand::On { part },
        Some(end) => Stand::Over { end },
    }
}

/// How the turn ends if a part gives no actor, for another reason than that none is left.
pub(crate) fn taken_end(reply: &PartReply) -> TickEnd
    ensures { result ≡ taken_end reply.now }
{
    match reply {
        PartReply::Stopped => TickEnd::Stopped,
        _ => TickEnd::OutOfMemory,
    }
}
