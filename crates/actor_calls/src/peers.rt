// What another sidecar's reply comes to.
ghost use Rattle.std.specs.Prelude.{◌≡◌};
ghost use Rattle.actor_calls.specs.Outcomes.{peer_fault, peer_next, ReadsPeer};

use crate::next::Next;
use crate::outcomes::refused;
use actors_api::{ApiRefusal, ApiReply};
use app_texts::{PeerReply, read_peer_reply};
use http_edge::{EdgeError, HttpResponse};
use std::alloc::Global;

// Where a call stands if another sidecar gave no reply.
fn peer_fault(error: EdgeError) -> ApiReply
    ensures { result ≡ peer_fault error }
{
    match error {
        EdgeError::ConnFault => refused(ApiRefusal::PeerFault),
        EdgeError::OutOfMemory => refused(ApiRefusal::OutOfMemory),
        _ => refused(ApiRefusal::PeerReply),
    }
}

// Where a call stands after a reply that was read as this.
fn next_by(reply: HttpResponse, said: PeerReply) -> Next
    ensures { result ≡ peer_next reply said }
{
    match said {
        PeerReply::Application => Next::Answered {
            reply: ApiReply::Invoked { reply },
        },
        PeerReply::Refusal { .. } => Next::Answered {
            reply: ApiReply::Invoked { reply },
        },
        PeerReply::Elsewhere { version, owner } => Next::Moves { version, owner },
        PeerReply::Unreadable => Next::Answered {
            reply: refused(ApiRefusal::PeerReply),
        },
        PeerReply::OutOfMemory => Next::Answered {
            reply: refused(ApiRefusal::OutOfMemory),
        },
    }
}

/// Where a call stands after an exchange with another sidecar. Its reply is passed on, whether it is the application's
/// or a refusal, unless it names another owner.
pub fn peer_next(alloc: Global, got: Result<HttpResponse, EdgeError>) -> Next
    ensures { ReadsPeer got result }
{
    match got {
        Err(error) => Next::Answered {
            reply: peer_fault(error),
        },
        Ok(reply) => {
            let said = read_peer_reply(alloc, &reply);
            next_by(reply, said)
        }
    }
}
