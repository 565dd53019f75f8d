// What replies of parts and of the application come to.
ghost use Rattle.std.specs.Prelude.{◌≡◌, Ok, Err};
ghost use Rattle.actor_calls.specs.Outcomes.{refused, refusal_of, next_of, app_answer, ended_answer, turn_answer};

use crate::next::Next;
use actors_api::{ApiRefusal, ApiReply};
use http_edge::{EdgeError, HttpResponse};
use part_core::PartReply;
use step_gate::Spent;

// The answer that refuses a request.
pub(crate) fn refused(refusal: ApiRefusal) -> ApiReply
    ensures { result ≡ refused refusal }
{
    ApiReply::Refused { refusal }
}

// The refusal that a step's reply is.
pub(crate) fn refusal_of(reply: &PartReply) -> ApiRefusal
    ensures { result ≡ refusal_of reply.now }
{
    match reply {
        PartReply::Spent { .. } => ApiRefusal::Spent,
        PartReply::Behind { seen } => ApiRefusal::Behind { seen: *seen },
        PartReply::Depth { turns } => ApiRefusal::Depth { turns: *turns },
        PartReply::NoHost { version } => ApiRefusal::NoHost { version: *version },
        PartReply::PartFull => ApiRefusal::PartFull,
        PartReply::QueueFull { .. } => ApiRefusal::QueueFull,
        PartReply::AlreadyEnded => ApiRefusal::Aborted,
        PartReply::Stopped => ApiRefusal::Stopped,
        _ => ApiRefusal::OutOfMemory,
    }
}

/// Where a call stands if its last reply begins no turn.
pub fn next_of(reply: PartReply) -> Next
    ensures { result ≡ next_of reply }
{
    match reply {
        PartReply::Elsewhere { version, owner } => Next::Moves { version, owner },
        refusal => Next::Answered {
            reply: refused(refusal_of(&refusal)),
        },
    }
}

// What the application's reply comes to.
fn app_answer(got: Result<HttpResponse, EdgeError>) -> ApiReply
    ensures { result ≡ app_answer got }
{
    match got {
        Ok(reply) => ApiReply::Invoked { reply },
        Err(EdgeError::ConnFault) => refused(ApiRefusal::AppFault),
        Err(EdgeError::OutOfMemory) => refused(ApiRefusal::OutOfMemory),
        Err(_) => refused(ApiRefusal::AppReply),
    }
}

// The answer after the turn's End was replied to, if memory didn't run out before.
fn ended_answer(reply: PartReply, got: Result<HttpResponse, EdgeError>) -> ApiReply
    ensures { result ≡ ended_answer reply got }
{
    match reply {
        PartReply::Ended { .. } => app_answer(got),
        PartReply::Stopped => refused(ApiRefusal::Stopped),
        PartReply::AlreadyEnded => refused(ApiRefusal::Aborted),
        _ => refused(ApiRefusal::OutOfMemory),
    }
}

// The answer after the turn's End was replied to, if the application gave no reply.
fn fault_answer(reply: PartReply, error: EdgeError) -> ApiReply
    ensures { result ≡ turn_answer (Ok reply) (Err error) }
{
    match error {
        EdgeError::OutOfMemory => refused(ApiRefusal::OutOfMemory),
        other => ended_answer(reply, Err(other)),
    }
}

/// The answer after a turn: a spent gate goes first, then want of memory, then the reply to the turn's End, then that of
/// the application.
pub fn turn_answer(said: Result<PartReply, Spent>, got: Result<HttpResponse, EdgeError>) -> ApiReply
    ensures { result ≡ turn_answer said got }
{
    match said {
        Err(_) => refused(ApiRefusal::Spent),
        Ok(reply) => match got {
            Ok(response) => ended_answer(reply, Ok(response)),
            Err(error) => fault_answer(reply, error),
        },
    }
}
