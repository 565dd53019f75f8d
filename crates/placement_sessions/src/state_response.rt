// The responses to requests for a room.
ghost use Rattle.std.specs.Prelude.{◌≡◌, None, Some, IfOk, MatchOption};
ghost use Rattle.std.specs.Option.{option_copied};
ghost use Rattle.http_edge.specs.declared.message.HttpResponse.{HttpResponse};
ghost use Rattle.actors_api.specs.Responses.{field, json_response};
ghost use Rattle.placement_sessions.specs.StateTexts.{room_in, state_of, rounds_of, asked_text, closing, refused_with, refusal_response, frame_response, look_response};

use crate::round_text::rounds_text;
use crate::route::Asked;
use crate::text::state_text;
use actor_names::Space;
use actors_api::{ApiRefusal, ApiReply, Side, write_api};
use frame_wire::{Frame, Refusal};
use http_edge::{Body, Bytes, HttpField, HttpFields, HttpResponse};
use lists_and_limits::OutOfMemory;
use placement_node::{NodeReply, RoomSeen};
use std::alloc::Global;

// The room of a space, if there is one.
fn room_in<'a>(rooms: &'a [RoomSeen], space: &Space) -> Option<&'a RoomSeen>
    ensures { option_copied result ≡ room_in rooms.now space.now }
{
    for room in rooms {
        if room.space.as_slice() == space.as_slice() {
            return Some(room);
        }
    }
    None
}

// The text of a space's members and version.
fn state_of(alloc: Global, room: Option<&RoomSeen>) -> Result<Vec<u8>, OutOfMemory>
    ensures { IfOk result (λ text. text.items ≡ state_of (option_copied room.entry)) }
{
    match room {
        Some(room) => state_text(alloc, room.members.as_slice(), room.version),
        None => state_text(alloc, &[], 0),
    }
}

// The text of a space's round.
fn rounds_of(alloc: Global, room: Option<&RoomSeen>) -> Result<Vec<u8>, OutOfMemory>
    ensures { IfOk result (λ text. text.items ≡ rounds_of (option_copied room.entry)) }
{
    match room {
        Some(room) => rounds_text(alloc, &room.round, room.version),
        None => rounds_text(alloc, &None, 0),
    }
}

// The text that is asked for.
fn asked_text(alloc: Global, asked: &Asked, rooms: &[RoomSeen]) -> Result<Vec<u8>, OutOfMemory>
    ensures { IfOk result (λ text. text.items ≡ asked_text asked.now rooms.now) }
{
    match asked {
        Asked::State { space } => state_of(alloc, room_in(rooms, space)),
        Asked::Rounds { space } => rounds_of(alloc, room_in(rooms, space)),
    }
}

// A field with this name and value.
fn field(alloc: Global, name: &[u8], value: &[u8]) -> Result<HttpField, OutOfMemory>
    ensures { IfOk result (λ made. made ≡ field name.now value.now) }
{
    let name = Bytes::from_slice(alloc, name)?;
    let value = Bytes::from_slice(alloc, value)?;
    Ok(HttpField { name, value })
}

// The response with this body of JSON.
fn json_response(alloc: Global, body: Vec<u8>) -> Result<HttpResponse, OutOfMemory>
    ensures { IfOk result (λ response. response ≡ json_response 200 body.items) }
{
    let mut fields = Vec::new(alloc);
    fields.push(field(alloc, b"Content-Type", b"application/json")?)?;
    Ok(HttpResponse {
        status: 200,
        fields: HttpFields::from_vec(fields),
        body: Body::from_vec(body),
    })
}

// The response, which says that the session ends if it does.
fn closing(alloc: Global, closes: bool, response: HttpResponse) -> Result<HttpResponse, OutOfMemory>
    ensures { IfOk result (λ made. made ≡ closing closes response) }
{
    if !closes {
        return Ok(response);
    }
    let HttpResponse {
        status,
        fields,
        body,
    } = response;
    let mut fields = fields.into_vec();
    fields.push(field(alloc, b"Connection", b"close")?)?;
    Ok(HttpResponse {
        status,
        fields: HttpFields::from_vec(fields),
        body,
    })
}

/// The response to a request that is refused.
pub(crate) fn refused_with(
    alloc: Global,
    closes: bool,
    refusal: ApiRefusal,
) -> Result<HttpResponse, OutOfMemory>
    ensures { IfOk result (λ made. made ≡ closing closes (refused_with refusal)) }
{
    let reply = ApiReply::Refused { refusal };
    let response = write_api(alloc, Side::Caller, reply)?;
    closing(alloc, closes, response)
}

// The response with the text that is asked for.
fn room_response(
    alloc: Global,
    closes: bool,
    rooms: &[RoomSeen],
    asked: &Asked,
) -> Result<HttpResponse, OutOfMemory>
    ensures { IfOk result (λ made. made ≡ closing closes (json_response 200 (asked_text asked.now rooms.now))) }
{
    let body = asked_text(alloc, asked, rooms)?;
    let response = json_response(alloc, body)?;
    closing(alloc, closes, response)
}

// The response that a refusal of a Look gets.
fn refusal_response(
    alloc: Global,
    closes: bool,
    refusal: Refusal,
) -> Option<Result<HttpResponse, OutOfMemory>>
    ensures { MatchOption result (refusal_response refusal ≡ None) (λ made. (r : HttpResponse) × (refusal_response refusal ≡ Some r) × IfOk made (λ m. m ≡ closing closes r)) }
{
    match refusal {
        Refusal::OutOfMemory => Some(refused_with(alloc, closes, ApiRefusal::OutOfMemory)),
        _ => None,
    }
}

// The response that a message as the reply to a Look gets.
fn frame_response(
    alloc: Global,
    closes: bool,
    frame: &Frame,
) -> Option<Result<HttpResponse, OutOfMemory>>
    ensures { MatchOption result (frame_response frame.now ≡ None) (λ made. (r : HttpResponse) × (frame_response frame.now ≡ Some r) × IfOk made (λ m. m ≡ closing closes r)) }
{
    match frame {
        Frame::Refused { refusal } => refusal_response(alloc, closes, *refusal),
        _ => None,
    }
}

/// The response to a request for a room, by the reply to its Look; none if the node must be opened again.
pub(crate) fn look_response(
    alloc: Global,
    closes: bool,
    reply: &NodeReply,
    asked: &Asked,
) -> Option<Result<HttpResponse, OutOfMemory>>
    ensures { MatchOption result (look_response reply.now asked.now ≡ None) (λ made. (r : HttpResponse) × (look_response reply.now asked.now ≡ Some r) × IfOk made (λ m. m ≡ closing closes r)) }
{
    match reply {
        NodeReply::Seen { rooms } => Some(room_response(alloc, closes, rooms.as_slice(), asked)),
        NodeReply::Message { frame } => frame_response(alloc, closes, frame),
        NodeReply::Ticked { dropped: _ } => None,
    }
}
