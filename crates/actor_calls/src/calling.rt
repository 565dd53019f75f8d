// Exchanges with the application and with other sidecars.
ghost use Rattle.std.specs.Prelude.{◌≡◌, List};
ghost use Rattle.std.specs.Option.{option_copied};
ghost use Rattle.exchanges.specs.Exchanges.{Exchange, Dialling};
ghost use Rattle.exchanges.specs.Replies.{IsHttpExchange, place_at};
ghost use Rattle.actor_calls.specs.Texts.{call_text, forward_text};
ghost use Rattle.http_edge.specs.Texts.{request_text};
ghost use Rattle.actor_calls.specs.Hops.{is_fault, AtMostTwice, AtMostThrice, IsPeerAsked};

use crate::invoke::Invoke;
use crate::next::Next;
use crate::peers::peer_next;
use actor_names::{Address, ChainId};
use actor_ports::Dial;
use app_texts::{MethodCall, PeerCall, invoke_text, peer_request};
use call_names::CallName;
use exchanges::{Links, exchange_at, exchange_text_at};
use http_edge::{EdgeError, HttpRequest, HttpResponse};
use place_table::HostInfo;
use std::alloc::Global;

// One exchange with the application at this address.
fn call_method<L: Dial>(
    alloc: Global,
    app: &mut L,
    at: &Address,
    call: &MethodCall<'_>,
) -> Result<HttpResponse, EdgeError>
    ensures { (xs : List Exchange)
        × IsHttpExchange (call_text at.now call.now.actor.now call.now.method.now (option_copied call.now.chain) call.now.request.now) (place_at at.now) xs result
        × Dialling xs (L.dialled app.old) (L.dialled app.new) (L.dial_faults app.old) (L.dial_faults app.new) }
{
    match invoke_text(alloc, at, call) {
        Err(_) => Err(EdgeError::OutOfMemory),
        Ok(text) => exchange_text_at(alloc, app, at, text.as_slice()),
    }
}

// Calls the method at the application, under the chain of the turn.
pub(crate) fn call_app<A: Dial, P: Dial, S: Dial>(
    alloc: Global,
    links: &mut Links<A, P, S>,
    invoke: &Invoke,
    request: &HttpRequest,
    chain: Option<&ChainId>,
) -> Result<HttpResponse, EdgeError>
    ensures exchange { (xs : List Exchange)
        × IsHttpExchange (call_text links.old.app_at invoke.now.actor invoke.now.method (option_copied chain.entry) request.now) (place_at links.old.app_at) xs result
        × Dialling xs (A.dialled links.old.app) (A.dialled links.new.app) (A.dial_faults links.old.app) (A.dial_faults links.new.app) }
    ensures places { (links.new.app_at ≡ links.old.app_at) × (links.new.store_at ≡ links.old.store_at) }
    ensures others { (links.new.peers ≡ links.old.peers) × (links.new.store ≡ links.old.store) }
{
    let at = links.app_at;
    let call = MethodCall {
        actor: &invoke.actor,
        method: invoke.method.as_slice(),
        chain,
        request,
    };
    call_method(alloc, &mut links.app, &at, &call)
}

// Whether an exchange failed with its link, so that it isn't known whether the other side acted.
fn is_fault(got: &Result<HttpResponse, EdgeError>) -> bool
    ensures { result ≡ is_fault got.now }
{
    matches!(got, Err(EdgeError::ConnFault))
}

// One exchange with the sidecar at this address, and after a fault of its link one more.
fn ask_twice<L: Dial>(
    alloc: Global,
    peers: &mut L,
    at: &Address,
    asked: &HttpRequest,
) -> Result<HttpResponse, EdgeError>
    ensures { (ys : List Exchange)
        × AtMostTwice (request_text asked.now) (place_at at.now) ys result
        × Dialling ys (L.dialled peers.old) (L.dialled peers.new) (L.dial_faults peers.old) (L.dial_faults peers.new) }
{
    let got = exchange_at(alloc, peers, at, asked);
    if is_fault(&got) {
        return exchange_at(alloc, peers, at, asked);
    }
    got
}

// The same, and after a fault of that link yet one more.
fn ask_thrice<L: Dial>(
    alloc: Global,
    peers: &mut L,
    at: &Address,
    asked: &HttpRequest,
) -> Result<HttpResponse, EdgeError>
    ensures { (ys : List Exchange)
        × AtMostThrice (request_text asked.now) (place_at at.now) ys result
        × Dialling ys (L.dialled peers.old) (L.dialled peers.new) (L.dial_faults peers.old) (L.dial_faults peers.new) }
{
    let got = exchange_at(alloc, peers, at, asked);
    if is_fault(&got) {
        return ask_twice(alloc, peers, at, asked);
    }
    got
}

// Hands the call on to the sidecar at this address, at most three times.
fn hand_on<L: Dial>(
    alloc: Global,
    peers: &mut L,
    at: &Address,
    call: &PeerCall<'_>,
) -> Result<HttpResponse, EdgeError>
    ensures { (ys : List Exchange)
        × AtMostThrice (forward_text at.now call.now.request.now call.now.least call.now.name.now) (place_at at.now) ys result
        × Dialling ys (L.dialled peers.old) (L.dialled peers.new) (L.dial_faults peers.old) (L.dial_faults peers.new) }
{
    match peer_request(alloc, at, call) {
        Err(_) => Err(EdgeError::OutOfMemory),
        Ok(asked) => ask_thrice(alloc, peers, at, &asked),
    }
}

/// Hands the request on to the owner's sidecar under this name, and says where the call stands then.
pub(crate) fn call_peer<L: Dial>(
    alloc: Global,
    peers: &mut L,
    request: &HttpRequest,
    least: u64,
    owner: &HostInfo,
    name: &CallName,
) -> Next
    ensures { (ys : List Exchange) × IsPeerAsked request.now least owner.now name.now ys result
        × Dialling ys (L.dialled peers.old) (L.dialled peers.new) (L.dial_faults peers.old) (L.dial_faults peers.new) }
{
    let call = PeerCall {
        request,
        least,
        name,
    };
    let got = hand_on(alloc, peers, &owner.address, &call);
    peer_next(alloc, got)
}
