// Writes replies as responses.
ghost use Rattle.std.specs.Prelude.{◌≡◌, [], ◌∷◌, IfOk, OnOk, codes, option_map, ◌++◌};
ghost use Rattle.actors_api.specs.Refusals.{refusal_row};
ghost use Rattle.actors_api.specs.Responses.{field, first_value, field_of, passed_on, json_response, error_body, refusal_word, refusal_response, elsewhere_response, no_content, no_memory, response_of};
ghost use Rattle.actors_api.specs.Owners.{owner_text};

use crate::owner::owner_text;
use crate::refusal::ApiRefusal;
use crate::refusal_text::{code_of, status_of, text_of};
use crate::reply::ApiReply;
use crate::side::Side;
use api_bodies::write_reminder;
use http_edge::{Body, Bytes, HttpField, HttpFields, HttpResponse};
use json_text::{Member, Piece, object_text};
use lists_and_limits::OutOfMemory;
use place_table::HostInfo;
use std::alloc::Global;

// A field with this name and value.
fn field(alloc: Global, name: &[u8], value: &[u8]) -> Result<HttpField, OutOfMemory>
    ensures { IfOk result (λ made. made ≡ field name.now value.now) }
{
    let name = Bytes::from_slice(alloc, name)?;
    let value = Bytes::from_slice(alloc, value)?;
    Ok(HttpField { name, value })
}

fn add_field(
    alloc: Global,
    fields: &mut Vec<HttpField>,
    name: &[u8],
    value: &[u8],
) -> Result<(), OutOfMemory>
    ensures { OnOk result (fields.new.items ≡ fields.old.items ++ field name.now value.now ∷ []) }
{
    let made = field(alloc, name, value)?;
    fields.push(made)?;
    Ok(())
}

/// The value of the first field with this name, whatever the case of its letters.
pub(crate) fn first_value<'a>(name: &[u8], fields: &'a [HttpField]) -> Option<&'a [u8]>
    ensures { option_map (λ value. value.now) result ≡ first_value name.now fields.now }
{
    for field in fields {
        if field.name.as_slice().eq_ignore_ascii_case(name) {
            return Some(field.value.as_slice());
        }
    }
    None
}

// The first Content-Type of these fields, if there is one, and no other field.
fn kept_fields(alloc: Global, fields: HttpFields) -> Result<HttpFields, OutOfMemory>
    ensures { IfOk result (λ kept. kept ≡ field_of (codes "Content-Type") (first_value (codes "Content-Type") fields)) }
{
    match first_value(b"Content-Type", fields.as_slice()) {
        None => {
            let mut fields = fields.into_vec();
            fields.clear();
            Ok(HttpFields::from_vec(fields))
        }
        Some(kind) => {
            let kind = field(alloc, b"Content-Type", kind)?;
            let mut fields = fields.into_vec();
            fields.clear();
            fields.push(kind)?;
            Ok(HttpFields::from_vec(fields))
        }
    }
}

// What is passed on of the application's reply, whose body isn't copied.
fn passed_on(alloc: Global, reply: HttpResponse) -> Result<HttpResponse, OutOfMemory>
    ensures { IfOk result (λ response. response ≡ passed_on reply) }
{
    let HttpResponse {
        status,
        fields,
        body,
    } = reply;
    let fields = kept_fields(alloc, fields)?;
    Ok(HttpResponse {
        status,
        fields,
        body,
    })
}

fn no_content(alloc: Global) -> HttpResponse
    ensures { result ≡ no_content }
{
    HttpResponse {
        status: 204,
        fields: HttpFields::from_vec(Vec::new(alloc)),
        body: Body::from_vec(Vec::new(alloc)),
    }
}

/// The status 503 alone. It takes no memory.
pub fn no_memory(alloc: Global) -> HttpResponse
    ensures { result ≡ no_memory }
{
    HttpResponse {
        status: 503,
        fields: HttpFields::from_vec(Vec::new(alloc)),
        body: Body::from_vec(Vec::new(alloc)),
    }
}

// An equal field.
fn copy_field(alloc: Global, field: &HttpField) -> Result<HttpField, OutOfMemory>
    ensures { IfOk result (λ copy. copy ≡ field.now) }
{
    let name = Bytes::from_slice(alloc, field.name.as_slice())?;
    let value = Bytes::from_slice(alloc, field.value.as_slice())?;
    Ok(HttpField { name, value })
}

// Copies of fields, in their order.
fn copy_fields(alloc: Global, fields: &[HttpField]) -> Result<Vec<HttpField>, OutOfMemory>
    ensures { IfOk result (λ copies. copies.items ≡ fields.now) }
{
    let mut copies = Vec::with_capacity(alloc, fields.len())?;
    for field in fields {
        copies.push(copy_field(alloc, field)?)?;
    }
    Ok(copies)
}

/// An equal response.
pub fn copy_response(alloc: Global, response: &HttpResponse) -> Result<HttpResponse, OutOfMemory>
    ensures { IfOk result (λ copy. copy ≡ response.now) }
{
    let fields = copy_fields(alloc, response.fields.as_slice())?;
    let body = Body::from_slice(alloc, response.body.as_slice())?;
    Ok(HttpResponse {
        status: response.status,
        fields: HttpFields::from_vec(fields),
        body,
    })
}

// A response with JSON of the sidecar's own.
fn json_response(alloc: Global, status: u16, body: Vec<u8>) -> Result<HttpResponse, OutOfMemory>
    ensures { IfOk result (λ response. response ≡ json_response status body.items) }
{
    let mut fields = Vec::new(alloc);
    add_field(alloc, &mut fields, b"Content-Type", b"application/json")?;
    Ok(HttpResponse {
        status,
        fields: HttpFields::from_vec(fields),
        body: Body::from_vec(body),
    })
}

fn error_body(alloc: Global, refusal: &ApiRefusal) -> Result<Vec<u8>, OutOfMemory>
    ensures { IfOk result (λ body. body.items ≡ error_body (refusal_row refusal.now)) }
{
    let text = text_of(alloc, refusal)?;
    let code = Member {
        key: "errorCode",
        value: Piece::Text(code_of(refusal)),
    };
    let message = Member {
        key: "message",
        value: Piece::Text(text.as_str()),
    };
    Ok(object_text(alloc, &[code, message])?)
}

// Appends the field that tells a peer that the sidecar refused.
fn add_refusal_word(
    alloc: Global,
    fields: &mut Vec<HttpField>,
    side: Side,
    word: &[u8],
) -> Result<(), OutOfMemory>
    ensures { OnOk result (fields.new.items ≡ fields.old.items ++ refusal_word side word.now) }
{
    match side {
        Side::Caller => Ok(()),
        Side::Peer => add_field(alloc, fields, b"Actors-Refusal", word),
    }
}

fn refusal_response(
    alloc: Global,
    side: Side,
    refusal: &ApiRefusal,
) -> Result<HttpResponse, OutOfMemory>
    ensures { IfOk result (λ response. response ≡ refusal_response side (refusal_row refusal.now)) }
{
    let mut fields = Vec::new(alloc);
    add_field(alloc, &mut fields, b"Content-Type", b"application/json")?;
    add_refusal_word(alloc, &mut fields, side, code_of(refusal).as_bytes())?;
    let body = error_body(alloc, refusal)?;
    Ok(HttpResponse {
        status: status_of(refusal),
        fields: HttpFields::from_vec(fields),
        body: Body::from_vec(body),
    })
}

fn elsewhere_response(
    alloc: Global,
    side: Side,
    version: u64,
    owner: &HostInfo,
) -> Result<HttpResponse, OutOfMemory>
    ensures { IfOk result (λ response. response ≡ elsewhere_response side (owner_text version owner.now)) }
{
    let mut fields = Vec::new(alloc);
    add_refusal_word(alloc, &mut fields, side, b"elsewhere")?;
    if let Side::Peer = side {
        let owner = owner_text(alloc, version, owner)?;
        add_field(alloc, &mut fields, b"Actors-Owner", &owner)?;
    }
    Ok(HttpResponse {
        status: 421,
        fields: HttpFields::from_vec(fields),
        body: Body::from_vec(Vec::new(alloc)),
    })
}

fn state_response(alloc: Global, value: &[u8]) -> Result<HttpResponse, OutOfMemory>
    ensures { IfOk result (λ response. response ≡ json_response 200 value.now) }
{
    let body = Vec::from_slice(alloc, value)?;
    json_response(alloc, 200, body)
}

/// The response to a reply. The body of a reply that is passed on and a response that is made aren't copied; a refusal's word
/// and an owner are told to a peer only.
pub fn write_api(alloc: Global, side: Side, reply: ApiReply) -> Result<HttpResponse, OutOfMemory>
    ensures { IfOk result (λ response. response ≡ response_of side reply) }
{
    match reply {
        ApiReply::Invoked { reply } => passed_on(alloc, reply),
        ApiReply::StateIs { value } => state_response(alloc, value.as_slice()),
        ApiReply::ReminderIs {
            due,
            period,
            ttl,
            payload,
        } => {
            let body = write_reminder(alloc, &due, &period, &ttl, &payload)?;
            json_response(alloc, 200, body)
        }
        ApiReply::TransactionMade
        | ApiReply::NoState
        | ApiReply::ReminderPut
        | ApiReply::ReminderDeleted
        | ApiReply::TimerSet
        | ApiReply::TimerDeleted => Ok(no_content(alloc)),
        ApiReply::Elsewhere { version, owner } => elsewhere_response(alloc, side, version, &owner),
        ApiReply::Made { response } => Ok(response),
        ApiReply::Unanswered => Ok(no_memory(alloc)),
        ApiReply::Refused { refusal } => refusal_response(alloc, side, &refusal),
    }
}
