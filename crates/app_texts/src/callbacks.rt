// The callbacks of reminders and timers, as an application is asked.
ghost use Rattle.std.specs.Prelude.{◌≡◌, ◌++◌, IfOk};
ghost use Rattle.std.specs.Option.{option_copied};
ghost use Rattle.http_edge.specs.Texts.{request_text};
ghost use Rattle.json_text.specs.Written.{piece_text};
ghost use Rattle.app_texts.specs.Texts.{escaped, data_text, reminder_body, timer_body, callback_text, reminder_text, timer_text};

use crate::escaping::{add_escaped, add_method_path};
use crate::lines::call_fields;
use crate::requests::request_of;
use actor_names::{ActorKey, Address, ChainId, RecordName};
use http_edge::{Body, HttpRequest};
use json_text::{Member, Piece, object_text};
use lists_and_limits::OutOfMemory;
use std::alloc::Global;

/// A callback of a reminder or timer.
#[derive(Clone, Copy)]
pub struct Callback<'a> {
    /// The actor.
    pub actor: &'a ActorKey,
    /// The name among the actor's reminders or timers.
    pub name: &'a RecordName,
    /// The chain of the turn; none if the actor's type isn't reentrant.
    pub chain: Option<&'a ChainId>,
    /// The JSON text that was registered as data, if there is one. It is copied as it is.
    pub payload: Option<&'a [u8]>,
    /// The text that said when it is due; empty if there was none.
    pub due: &'a str,
    /// The text that gave its period; empty if there was none.
    pub period: &'a str,
}

fn data_piece<'a>(payload: Option<&'a [u8]>) -> Piece<'a>
    ensures { piece_text result ≡ data_text (option_copied payload.entry) }
{
    match payload {
        None => Piece::Null,
        Some(kept) => Piece::Kept(kept),
    }
}

// What the callback of a reminder is given.
#[tactic(auto, using(crate::proofs::Bodies::three_members))]
fn reminder_body(alloc: Global, callback: &Callback<'_>) -> Result<Body, OutOfMemory>
    ensures { IfOk result (λ body. body ≡ reminder_body callback.now) }
{
    let members = [
        Member {
            key: "data",
            value: data_piece(callback.payload),
        },
        Member {
            key: "dueTime",
            value: Piece::Text(callback.due),
        },
        Member {
            key: "period",
            value: Piece::Text(callback.period),
        },
    ];
    let text = object_text(alloc, members.as_slice())?;
    Ok(Body::from_vec(text))
}

// What the callback of a timer is given.
#[tactic(auto, using(crate::proofs::Bodies::four_members))]
fn timer_body(alloc: Global, method: &str, callback: &Callback<'_>) -> Result<Body, OutOfMemory>
    ensures { IfOk result (λ body. body ≡ timer_body method.now callback.now) }
{
    let members = [
        Member {
            key: "callback",
            value: Piece::Text(method),
        },
        Member {
            key: "data",
            value: data_piece(callback.payload),
        },
        Member {
            key: "dueTime",
            value: Piece::Text(callback.due),
        },
        Member {
            key: "period",
            value: Piece::Text(callback.period),
        },
    ];
    let text = object_text(alloc, members.as_slice())?;
    Ok(Body::from_vec(text))
}

// The method of a callback: `remind/` or `timer/`, and the name.
fn callback_method(alloc: Global, kind: &[u8], name: &RecordName) -> Result<Vec<u8>, OutOfMemory>
    ensures { IfOk result (λ method. method.items ≡ kind.now ++ escaped name.now) }
{
    let mut method = Vec::from_slice(alloc, kind)?;
    add_escaped(alloc, name.as_slice(), &mut method)?;
    Ok(method)
}

// The request of a callback of this kind with this body.
fn callback_request(
    alloc: Global,
    kind: &[u8],
    app: &Address,
    callback: &Callback<'_>,
    body: Body,
) -> Result<HttpRequest, OutOfMemory>
    ensures { IfOk result (λ q. request_text q ≡ callback_text kind.now app.now callback.now body) }
{
    let method = callback_method(alloc, kind, callback.name)?;
    let mut target = Vec::new(alloc);
    add_method_path(alloc, callback.actor, method.as_slice(), &mut target)?;
    let fields = call_fields(alloc, app, Some(b"application/json"), callback.chain)?;
    request_of(alloc, b"PUT", target, fields, body)
}

/// The request of a reminder's callback at the application's address. It is a call of the method `remind/NAME`.
#[tactic(auto, unfolding(crate::specs::Texts::reminder_text))]
pub fn reminder_request(
    alloc: Global,
    app: &Address,
    callback: &Callback<'_>,
) -> Result<HttpRequest, OutOfMemory>
    ensures { IfOk result (λ q. request_text q ≡ reminder_text app.now callback.now) }
{
    let body = reminder_body(alloc, callback)?;
    callback_request(alloc, b"remind/", app, callback, body)
}

/// The request of a timer's callback at the application's address, which names `method` in its body; `method` is
/// empty if there was none. It is a call of the method `timer/NAME`.
#[tactic(auto, unfolding(crate::specs::Texts::timer_text))]
pub fn timer_request(
    alloc: Global,
    app: &Address,
    method: &str,
    callback: &Callback<'_>,
) -> Result<HttpRequest, OutOfMemory>
    ensures { IfOk result (λ q. request_text q ≡ timer_text app.now method.now callback.now) }
{
    let body = timer_body(alloc, method, callback)?;
    callback_request(alloc, b"timer/", app, callback, body)
}
