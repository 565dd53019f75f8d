// Calls that other sidecars forwarded here. Each of them acts at most once.
ghost use Rattle.std.specs.Prelude.{◌≡◌, List};
ghost use Rattle.sidecar_node.specs.Entries.{NodeEntry};
ghost use Rattle.sidecar_node.specs.Nodes.{IsSeatsOf, Acts};
ghost use Rattle.exchanges.specs.Exchanges.{Exchange, Dialling};
ghost use Rattle.actors_api.specs.Responses.{response_of};
ghost use Rattle.actor_calls.specs.Forwards.{begin_of, finish_of, known_answer, GoesOut, finish_answer};
ghost use Rattle.actor_calls.specs.Serving.{IsForwardServed};

use crate::invoke::Invoke;
use crate::invoking::serve_invoke;
use crate::outcomes::refused;
use actor_ports::{Clock, Dial};
use actors_api::{ApiRefusal, ApiReply, Side, copy_response, no_memory, write_api};
use call_book::{BookEvent, BookReply};
use call_names::CallName;
use exchanges::Links;
use http_edge::{HttpRequest, HttpResponse};
use sidecar_node::Desk;
use std::alloc::Global;
use std::sync::Wait;
use step_gate::Spent;

fn begin_of(call: &CallName) -> BookEvent
    ensures { result ≡ begin_of call.now }
{
    BookEvent::Begin {
        origin: call.origin.copy(),
        part: call.part,
        number: call.number,
    }
}

fn finish_of(call: &CallName, response: HttpResponse) -> BookEvent
    ensures { result ≡ finish_of call.now response }
{
    BookEvent::Finish {
        origin: call.origin.copy(),
        part: call.part,
        number: call.number,
        response,
    }
}

// The answer to a call that isn't new.
fn known_answer(reply: BookReply) -> ApiReply
    ensures { result ≡ known_answer reply }
{
    match reply {
        BookReply::Kept { response } => ApiReply::Made { response },
        BookReply::Running => refused(ApiRefusal::CallRunning),
        BookReply::Gone { status } => refused(ApiRefusal::AnswerGone { status }),
        BookReply::TooOld { floor } => refused(ApiRefusal::CallOld { floor }),
        BookReply::OldBoot { greatest } => refused(ApiRefusal::CallBoot { boot: greatest }),
        BookReply::LanesFull { .. } => refused(ApiRefusal::CallLanes),
        BookReply::BookFull { .. } => refused(ApiRefusal::BookFull),
        _ => refused(ApiRefusal::OutOfMemory),
    }
}

// What goes out of a reply, and the same response for the book. If there is no memory for both, nothing goes out, and the
// book notes a status alone.
fn go_out(alloc: Global, side: Side, reply: ApiReply) -> (ApiReply, HttpResponse)
    ensures sent { GoesOut side reply result.0 }
    ensures noted { result.1 ≡ response_of side result.0 }
{
    let Ok(response) = write_api(alloc, side, reply) else {
        return (ApiReply::Unanswered, no_memory(alloc));
    };
    let Ok(noted) = copy_response(alloc, &response) else {
        return (ApiReply::Unanswered, no_memory(alloc));
    };
    (ApiReply::Made { response }, noted)
}

// The answer after the Finish.
fn finish_answer(said: Result<BookReply, Spent>, sent: ApiReply) -> ApiReply
    ensures { result ≡ finish_answer said sent }
{
    match said {
        Err(_) => refused(ApiRefusal::Spent),
        Ok(_) => sent,
    }
}

/// Serves a call that another sidecar forwarded here under this name: one Begin in the book of forwarded calls, and if it
/// is new, the call is served and has one Finish with the response that goes out. Any other reply to the Begin is the
/// answer, and nothing else is done. If there is no memory for the response, none goes out, and the Finish notes status
/// 503 alone, which takes no memory.
pub fn serve_forwarded<R: Wait, A: Dial, P: Dial, S: Dial, K: Clock>(
    desk: &mut Desk<'_, R, Links<A, P, S>, K>,
    side: Side,
    call: &CallName,
    invoke: &Invoke,
    request: &HttpRequest,
) -> ApiReply
    requires { IsSeatsOf desk.old.node.now desk.old.seats }
    ensures node { desk.new.node.now ≡ desk.old.node.now }
    ensures seats { IsSeatsOf desk.old.node.now desk.new.seats }
    ensures served { (ns : List NodeEntry) × (xs : List Exchange) × (ys : List Exchange) × Acts ns desk.old.seats desk.new.seats
        × Dialling xs (A.dialled desk.old.links.app) (A.dialled desk.new.links.app) (A.dial_faults desk.old.links.app) (A.dial_faults desk.new.links.app)
        × Dialling ys (P.dialled desk.old.links.peers) (P.dialled desk.new.links.peers) (P.dial_faults desk.old.links.peers) (P.dial_faults desk.new.links.peers)
        × IsForwardServed desk.old.node.now desk.new.seats desk.old.links.app_at side request.now call.now invoke.now (K.shown desk.old.clock) (K.shown desk.new.clock) ns xs ys result }
    ensures places { (desk.new.links.app_at ≡ desk.old.links.app_at) × (desk.new.links.store_at ≡ desk.old.links.store_at) }
    ensures store { desk.new.links.store ≡ desk.old.links.store }
{
    let node = desk.node;
    match node.step_calls(desk.rt, &mut desk.seats, begin_of(call)) {
        Err(_) => refused(ApiRefusal::Spent),
        Ok(reply) => match reply {
            BookReply::New => {
                let answer = serve_invoke(desk, side, invoke, request);
                let (sent, noted) = go_out(desk.alloc, side, answer);
                let finish = finish_of(call, noted);
                let said = node.step_calls(desk.rt, &mut desk.seats, finish);
                finish_answer(said, sent)
            }
            known => known_answer(known),
        },
    }
}
