// A caller's request that is handed on to the sidecar that owns the actor.
ghost use Rattle.std.specs.Prelude.{◌≡◌, ◌++◌, codes, decimal, IfOk, OnOk};
ghost use Rattle.http_edge.specs.Texts.{field_lines, request_text};
ghost use Rattle.call_names.specs.Texts.{call_text};
ghost use Rattle.app_texts.specs.Texts.{line, peer_lines, peer_text};

use crate::fields::{add_field, add_field_if, first_value};
use crate::lines::{add_close, add_host};
use crate::requests::request_of;
use actor_names::Address;
use call_names::{CallName, add_call};
use http_edge::{Body, HttpField, HttpFields, HttpRequest};
use itoa::Buffer;
use lists_and_limits::OutOfMemory;
use std::alloc::Global;

/// A call that is handed on.
#[derive(Clone, Copy)]
pub struct PeerCall<'a> {
    /// The caller's request.
    pub request: &'a HttpRequest,
    /// The least version of the table that the other sidecar must have seen.
    pub least: u64,
    /// The name of the call. A call that is handed on again under its name acts no second time there.
    pub name: &'a CallName,
}

// Appends the least version.
fn add_least(alloc: Global, least: u64, fields: &mut Vec<HttpField>) -> Result<(), OutOfMemory>
    ensures { OnOk result (field_lines fields.new.items ≡ field_lines fields.old.items ++ line (codes "Actors-Least") (decimal least)) }
{
    let mut buffer = Buffer::new();
    add_field(
        alloc,
        b"Actors-Least",
        buffer.format(least).as_bytes(),
        fields,
    )
}

// Appends the name of the call.
fn add_name(alloc: Global, name: &CallName, fields: &mut Vec<HttpField>) -> Result<(), OutOfMemory>
    ensures { OnOk result (field_lines fields.new.items ≡ field_lines fields.old.items ++ line (codes "Actors-Call") (call_text name.now)) }
{
    let mut text = Vec::new(alloc);
    add_call(&mut text, name)?;
    add_field(alloc, b"Actors-Call", text.as_slice(), fields)
}

// The fields of a call that is handed on.
fn peer_fields(
    alloc: Global,
    peer: &Address,
    call: &PeerCall<'_>,
) -> Result<HttpFields, OutOfMemory>
    ensures { IfOk result (λ fields. field_lines fields ≡ peer_lines peer.now call.now) }
{
    let mut fields = Vec::new(alloc);
    let chain = first_value(b"Dapr-Reentrancy-Id", call.request.fields.as_slice());
    let content = first_value(b"Content-Type", call.request.fields.as_slice());
    add_host(alloc, peer, &mut fields)?;
    add_least(alloc, call.least, &mut fields)?;
    add_name(alloc, call.name, &mut fields)?;
    add_field_if(alloc, b"Actors-Chain", chain, &mut fields)?;
    add_field_if(alloc, b"Content-Type", content, &mut fields)?;
    add_close(alloc, &mut fields)?;
    Ok(HttpFields::from_vec(fields))
}

/// The request that hands a caller's call on to the sidecar at this address: the caller's method, target, Content-Type
/// and body. The chain is the one that the caller's request tells by `Dapr-Reentrancy-Id`; one that a part has made
/// since isn't handed on.
#[tactic(auto, unfolding(crate::specs::Texts::peer_text))]
pub fn peer_request(
    alloc: Global,
    peer: &Address,
    call: &PeerCall<'_>,
) -> Result<HttpRequest, OutOfMemory>
    ensures { IfOk result (λ q. request_text q ≡ peer_text peer.now call.now) }
{
    let target = Vec::from_slice(alloc, call.request.target.as_slice())?;
    let fields = peer_fields(alloc, peer, call)?;
    let body = Body::from_slice(alloc, call.request.body.as_slice())?;
    request_of(alloc, call.request.method.as_slice(), target, fields, body)
}
