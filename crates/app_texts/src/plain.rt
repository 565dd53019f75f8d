// Requests that carry nothing: the end of an activation, and the question for the configuration.
ghost use Rattle.std.specs.Prelude.{◌≡◌, IfOk};
ghost use Rattle.http_edge.specs.Texts.{request_text};
ghost use Rattle.app_texts.specs.Texts.{deactivate_text, config_text};

use crate::escaping::add_actor_path;
use crate::fields::add;
use crate::lines::plain_fields;
use crate::requests::request_of;
use actor_names::{ActorKey, Address};
use http_edge::{Body, HttpRequest};
use lists_and_limits::OutOfMemory;
use std::alloc::Global;

/// The request that tells the application at this address that an actor is no longer active.
#[tactic(auto, unfolding(crate::specs::Texts::deactivate_text))]
pub fn deactivate_request(
    alloc: Global,
    app: &Address,
    actor: &ActorKey,
) -> Result<HttpRequest, OutOfMemory>
    ensures { IfOk result (λ q. request_text q ≡ deactivate_text app.now actor.now) }
{
    let mut target = Vec::new(alloc);
    add_actor_path(alloc, actor, &mut target)?;
    let fields = plain_fields(alloc, app)?;
    let body = Body::from_vec(Vec::new(alloc));
    request_of(alloc, b"DELETE", target, fields, body)
}

/// The request that asks the application at this address for its configuration.
#[tactic(auto, unfolding(crate::specs::Texts::config_text))]
pub fn config_request(alloc: Global, app: &Address) -> Result<HttpRequest, OutOfMemory>
    ensures { IfOk result (λ q. request_text q ≡ config_text app.now) }
{
    let mut target = Vec::new(alloc);
    add(b"/dapr/config", &mut target)?;
    let fields = plain_fields(alloc, app)?;
    let body = Body::from_vec(Vec::new(alloc));
    request_of(alloc, b"GET", target, fields, body)
}
