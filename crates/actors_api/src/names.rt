// The names in a path and in the fields of a head.
ghost use Rattle.std.specs.Prelude.{◌≡◌, option_map};
ghost use Rattle.std.specs.Option.{option_and_then};
ghost use Rattle.std.specs.Cow.{cow_slice_items};
ghost use Rattle.std.specs.Str.{is_utf8};
ghost use Rattle.percent_encoding.specs.Percent.{percent_decode};
ghost use Rattle.call_names.specs.Readings.{call_reading};
ghost use Rattle.actors_api.specs.Reading.{Gives};
ghost use Rattle.actors_api.specs.Paths.{route_view};
ghost use Rattle.actors_api.specs.Parts.{type_reading, id_reading, record_reading, actor_reading, key_of, key_reading, method_reading, chain_field, chain_reading, least_reading, call_name_reading};
ghost use Rattle.lists_and_limits.specs.Decimals.{number_of};
ghost use Rattle.lists_and_limits.specs.Limits.{last_number};

use crate::fault::{Fault, name_fault};
use crate::path::Route;
use crate::refusal::{ApiName, ApiRefusal};
use crate::response::first_value;
use crate::side::Side;
use actor_names::{
    ActorId, ActorKey, ActorType, ChainId, RecordName, Space, read_actor_id, read_actor_type,
    read_chain_id, read_record_name,
};
use call_names::{CallName, read_call};
use http_edge::{Bytes, HttpFields};
use lists_and_limits::{LAST_NUMBER, read_decimal};
use percent_encoding::percent_decode;
use state_rows::{MOST_KEY_BYTES, StateKey};
use std::alloc::Global;
use std::borrow::CowSlice;

const MOST_METHOD_BYTES: usize = 1024;

// The bytes that a part of a path spells.
fn decoded(alloc: Global, part: &[u8]) -> Result<Vec<u8>, Fault>
    ensures { Gives (λ bytes. bytes.items) result (Ok (percent_decode part.now)) }
{
    let mut bytes = Vec::new(alloc);
    percent_decode(part).append_to(&mut bytes)?;
    Ok(bytes)
}

// The same bytes, which are copied only if an escape stands among them.
fn spelled(alloc: Global, part: &[u8]) -> Result<CowSlice<'_, u8, Global>, Fault>
    ensures { Gives (λ bytes. cow_slice_items bytes) result (Ok (percent_decode part.now)) }
{
    Ok(percent_decode(part).into_cow(alloc)?)
}

fn type_at(alloc: Global, part: &[u8]) -> Result<ActorType, Fault>
    ensures { Gives (λ name. name) result (type_reading part.now) }
{
    let text = spelled(alloc, part)?;
    match read_actor_type(alloc, text.as_slice()) {
        Ok(name) => Ok(name),
        Err(error) => Err(name_fault(ApiName::Type, error)),
    }
}

fn id_at(alloc: Global, part: &[u8]) -> Result<ActorId, Fault>
    ensures { Gives (λ name. name) result (id_reading part.now) }
{
    let text = spelled(alloc, part)?;
    match read_actor_id(alloc, text.as_slice()) {
        Ok(name) => Ok(name),
        Err(error) => Err(name_fault(ApiName::Id, error)),
    }
}

/// The name of a reminder or timer.
pub(crate) fn record_name_at(alloc: Global, part: &[u8]) -> Result<RecordName, Fault>
    ensures { Gives (λ name. name) result (record_reading part.now) }
{
    let text = decoded(alloc, part)?;
    match read_record_name(alloc, &text) {
        Ok(name) => Ok(name),
        Err(error) => Err(name_fault(ApiName::Name, error)),
    }
}

/// The actor of a path, in the space of the node.
pub(crate) fn actor_at(alloc: Global, space: &Space, route: &Route<'_>) -> Result<ActorKey, Fault>
    ensures { Gives (λ actor. actor) result (actor_reading space.now (route_view route.now)) }
{
    let kind = type_at(alloc, route.kind)?;
    let id = id_at(alloc, route.id)?;
    Ok(ActorKey {
        space: *space,
        kind,
        id,
    })
}

// Whether bytes are UTF-8.
#[tactic(auto, using(crate::proofs::Utf8::tested_utf8, crate::proofs::Utf8::tested_not_utf8))]
fn is_utf8(bytes: &[u8]) -> bool
    ensures { result ≡ is_utf8 bytes.now }
{
    match str::from_utf8(bytes) {
        Ok(_) => true,
        Err(_) => false,
    }
}

// The key that these bytes are.
fn key_of(bytes: Vec<u8>) -> Result<StateKey, Fault>
    ensures { Gives (λ key. key) result (key_of bytes.items) }
{
    let bad = Fault::Refused {
        refusal: ApiRefusal::BadName { name: ApiName::Key },
    };
    if !is_utf8(&bytes) || bytes.is_empty() || bytes.len() > MOST_KEY_BYTES {
        return Err(bad);
    }
    Ok(StateKey::from_string(String::from_utf8(bytes).unwrap()))
}

/// The key of an entry of state.
pub(crate) fn key_at(alloc: Global, part: &[u8]) -> Result<StateKey, Fault>
    ensures { Gives (λ key. key) result (key_reading part.now) }
{
    let bytes = decoded(alloc, part)?;
    key_of(bytes)
}

/// The method of a call, with the query.
pub(crate) fn method_at(alloc: Global, rest: &[u8], query: &[u8]) -> Result<Bytes, Fault>
    ensures { Gives (λ method. method) result (method_reading rest.now query.now) }
{
    if rest.len() > MOST_METHOD_BYTES {
        return Err(Fault::Refused {
            refusal: ApiRefusal::BadName {
                name: ApiName::Method,
            },
        });
    }
    let mut method = Vec::with_capacity(alloc, rest.len().saturating_add(query.len()))?;
    method.extend_from_slice(rest)?;
    method.extend_from_slice(query)?;
    Ok(Bytes::from_vec(method))
}

fn chain_field(side: Side) -> &'static [u8]
    ensures { result.now ≡ chain_field side }
{
    match side {
        Side::Caller => b"Dapr-Reentrancy-Id",
        Side::Peer => b"Actors-Chain",
    }
}

/// The chain that a call brings.
pub(crate) fn chain_at(
    alloc: Global,
    side: Side,
    fields: &HttpFields,
) -> Result<Option<ChainId>, Fault>
    ensures { Gives (λ chain. chain) result (chain_reading side fields.now) }
{
    let Some(text) = first_value(chain_field(side), fields.as_slice()) else {
        return Ok(None);
    };
    match read_chain_id(alloc, text) {
        Ok(chain) => Ok(Some(chain)),
        Err(error) => Err(name_fault(ApiName::Chain, error)),
    }
}

// The number of a version.
fn version_in(text: Option<&[u8]>) -> Option<u64>
    ensures { result ≡ option_and_then (number_of last_number) (option_map (λ t. t.now) text.entry) }
{
    read_decimal(text?, LAST_NUMBER)
}

/// The least version that a peer knows of; a caller tells none.
pub(crate) fn least_at(side: Side, fields: &HttpFields) -> Result<Option<u64>, Fault>
    ensures { Gives (λ least. least) result (least_reading side fields.now) }
{
    if let Side::Caller = side {
        return Ok(None);
    }
    match version_in(first_value(b"Actors-Least", fields.as_slice())) {
        Some(version) => Ok(Some(version)),
        None => Err(Fault::Refused {
            refusal: ApiRefusal::BadName {
                name: ApiName::Least,
            },
        }),
    }
}

// The name of a call that a text tells.
fn call_in(text: Option<&[u8]>) -> Option<CallName>
    ensures { result ≡ option_and_then call_reading (option_map (λ t. t.now) text.entry) }
{
    read_call(text?)
}

/// The name that a peer gives to a call; a caller gives none.
pub(crate) fn call_at(side: Side, fields: &HttpFields) -> Result<Option<CallName>, Fault>
    ensures { Gives (λ call. call) result (call_name_reading side fields.now) }
{
    if let Side::Caller = side {
        return Ok(None);
    }
    match call_in(first_value(b"Actors-Call", fields.as_slice())) {
        Some(call) => Ok(Some(call)),
        None => Err(Fault::Refused {
            refusal: ApiRefusal::BadName {
                name: ApiName::Call,
            },
        }),
    }
}
