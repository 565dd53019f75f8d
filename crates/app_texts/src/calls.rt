// Calls of methods, as an application is asked.
ghost use Rattle.std.specs.Prelude.{◌≡◌, IfOk};
ghost use Rattle.app_texts.specs.Texts.{invoke_text};

use crate::fields::first_value;
use crate::text::{add_call_lines, add_call_start, add_sized};
use actor_names::{ActorKey, Address, ChainId};
use http_edge::HttpRequest;
use lists_and_limits::OutOfMemory;
use std::alloc::Global;

/// A call of an actor's method.
#[derive(Clone, Copy)]
pub struct MethodCall<'a> {
    /// The actor.
    pub actor: &'a ActorKey,
    /// The method, as it stands in the caller's path, with the query.
    pub method: &'a [u8],
    /// The chain of the turn; none if the actor's type isn't reentrant.
    pub chain: Option<&'a ChainId>,
    /// The caller's request, whose Content-Type and body are passed on.
    pub request: &'a HttpRequest,
}

// Room for the text of a call, so that it is allocated once: an escape has three bytes, and the words around the parts fewer
// than 256.
fn room_for(call: &MethodCall<'_>, content: Option<&[u8]>) -> usize {
    let names = call
        .actor
        .kind
        .as_slice()
        .len()
        .saturating_add(call.actor.id.as_slice().len());
    let chain = match call.chain {
        None => 0,
        Some(chain) => chain.as_slice().len(),
    };
    let content = match content {
        None => 0,
        Some(content) => content.len(),
    };
    names
        .saturating_mul(3)
        .saturating_add(call.method.len())
        .saturating_add(chain)
        .saturating_add(content)
        .saturating_add(call.request.body.as_slice().len())
        .saturating_add(256)
}

/// The text of the request that calls a method of an actor at the application's address, byte for byte as it is stated. It is
/// a PUT, whatever method the caller used, with the caller's first Content-Type and body, which is copied once, into the text.
pub fn invoke_text(
    alloc: Global,
    app: &Address,
    call: &MethodCall<'_>,
) -> Result<Vec<u8>, OutOfMemory>
    ensures { IfOk result (λ text. text.items ≡ invoke_text app.now call.now) }
{
    let content = first_value(b"Content-Type", call.request.fields.as_slice());
    let mut text = Vec::with_capacity(alloc, room_for(call, content))?;
    add_call_start(alloc, call.actor, call.method, &mut text)?;
    add_call_lines(app, content, call.chain, &mut text)?;
    add_sized(call.request.body.as_slice(), &mut text)?;
    Ok(text)
}
