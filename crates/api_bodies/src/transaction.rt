// The JSON body of a transaction.
ghost use Rattle.std.specs.Prelude.{◌≡◌, ◌≤◌, Ok, IfSome, codes, option_map};
ghost use Rattle.std.specs.Option.{option_and_then};
ghost use Rattle.lists_and_limits.specs.Decimals.{number_of};
ghost use Rattle.json_text.specs.Values.{member_at};
ghost use Rattle.state_rows.specs.Checks.{ops_fault};
ghost use Rattle.api_bodies.specs.Reading.{Gives, ReadsBody, read_all};
ghost use Rattle.api_bodies.specs.Transactions.{elements, array_reading, text_at, seconds_of, ttl_in, ttl_reading, asked_put, asked_upsert, asked_by, asked_op, kept_op, made_op, size_error, sized, ops_in, ops_reading};

use crate::body::{body_value, kept_text};
use crate::error::{BodyError, error_of};
use crate::fault::{Fault, malformed};
use frame_wire::StateOps;
use json_text::JsonRef;
use lists_and_limits::read_decimal;
use state_rows::{StateError, StateKey, StateOp, StateRows, StateValue};
use std::alloc::Global;

const MOST_SECONDS: u64 = 315_360_000;

// What an upsert asks for, before its numbers and sizes are looked at.
#[derive(Drop)]
pub(crate) struct AskedPut<'a> {
    value: JsonRef<'a>,
    ttl: Option<u32>,
}

// What an operation asks for; a delete puts nothing.
#[derive(Drop)]
pub(crate) struct AskedOp<'a> {
    key: StateKey,
    put: Option<AskedPut<'a>>,
}

// The elements of an array.
fn elements<'a>(alloc: Global, whole: &JsonRef<'a>) -> Result<Vec<JsonRef<'a>>, Fault>
    ensures { Gives (λ items. items.items) result (array_reading whole.now) }
{
    let Some(count) = whole.item_count() else {
        return Err(malformed());
    };
    let mut items = Vec::new(alloc);
    for index in 0..count {
        let item = whole.item(index).unwrap();
        items.push(item)?;
    }
    Ok(items)
}

// The text of a member.
fn text_at<'a>(whole: &JsonRef<'a>, key: &str) -> Option<&'a str>
    ensures { option_map (λ t. t.now) result ≡ text_at key.now whole.now }
{
    match whole.member(key) {
        None => None,
        Some(value) => value.as_str(),
    }
}

// The number of a text.
fn number_in(text: Option<&str>) -> Option<u64>
    ensures small { IfSome result (λ n. n ≤ 315360000) }
    ensures number { result ≡ option_and_then (number_of 315360000) (option_map (λ t. t.now) text.entry) }
{
    read_decimal(text?.as_bytes(), MOST_SECONDS)
}

fn seconds_of(number: Option<u64>) -> Result<Option<u32>, Fault>
    requires { IfSome number (λ n. n ≤ 315360000) }
    ensures { Gives (λ ttl. ttl) result (seconds_of number) }
{
    match number {
        Some(number) => {
            if number < 1 {
                return Err(malformed());
            }
            Ok(Some(number as u32))
        }
        None => Err(malformed()),
    }
}

// The text `ttlInSeconds`.
fn ttl_in(whole: &JsonRef<'_>) -> Result<Option<u32>, Fault>
    ensures { Gives (λ ttl. ttl) result (ttl_in (member_at (codes "ttlInSeconds") whole.now)) }
{
    match whole.member("ttlInSeconds") {
        None => Ok(None),
        Some(value) => {
            if value.is_null() {
                return Ok(None);
            }
            seconds_of(number_in(value.as_str()))
        }
    }
}

// How long an entry stays.
fn ttl_of(request: &JsonRef<'_>) -> Result<Option<u32>, Fault>
    ensures { Gives (λ ttl. ttl) result (ttl_reading (member_at (codes "metadata") request.now)) }
{
    match request.member("metadata") {
        None => Ok(None),
        Some(value) => {
            if value.is_null() {
                return Ok(None);
            }
            if !value.is_object() {
                return Err(malformed());
            }
            ttl_in(&value)
        }
    }
}

fn asked_put<'a>(request: &JsonRef<'a>) -> Result<AskedPut<'a>, Fault>
    ensures { Gives (λ put. put) result (asked_put request.now) }
{
    let Some(value) = request.member("value") else {
        return Err(malformed());
    };
    let ttl = ttl_of(request)?;
    Ok(AskedPut { value, ttl })
}

// What an operation with this word and key asks for.
fn asked_by<'a>(word: &str, key: StateKey, request: &JsonRef<'a>) -> Result<AskedOp<'a>, Fault>
    ensures { Gives (λ op. op) result (asked_by word.now key request.now) }
{
    if word == "upsert" {
        let put = asked_put(request)?;
        return Ok(AskedOp {
            key,
            put: Some(put),
        });
    }
    if word == "delete" {
        return Ok(AskedOp { key, put: None });
    }
    Err(malformed())
}

fn state_key(alloc: Global, text: &str) -> Result<StateKey, Fault>
    ensures { Gives (λ key. key) result (Ok text.now) }
{
    let text = String::from_str(alloc, text)?;
    Ok(StateKey::from_string(text))
}

fn asked_op<'a>(alloc: Global, whole: &JsonRef<'a>) -> Result<AskedOp<'a>, Fault>
    ensures { Gives (λ op. op) result (asked_op whole.now) }
{
    let Some(word) = text_at(whole, "operation") else {
        return Err(malformed());
    };
    let Some(request) = whole.member("request") else {
        return Err(malformed());
    };
    let Some(key) = text_at(&request, "key") else {
        return Err(malformed());
    };
    let key = state_key(alloc, key)?;
    asked_by(word, key, &request)
}

// What all operations ask for.
fn asked_ops<'a>(alloc: Global, items: &[JsonRef<'a>]) -> Result<Vec<AskedOp<'a>>, Fault>
    ensures { Gives (λ ops. ops.items) result (read_all asked_op items.now) }
{
    let mut ops = Vec::new(alloc);
    for item in items {
        let op = asked_op(alloc, item)?;
        ops.push(op)?;
    }
    Ok(ops)
}

// The operation, with its value's text.
fn made_op(alloc: Global, op: AskedOp<'_>) -> Result<StateOp, Fault>
    ensures { Gives (λ made. made) result (made_op op.entry) }
{
    let AskedOp { key, put } = op;
    match put {
        None => Ok(StateOp::Delete { key }),
        Some(put) => {
            let text = kept_text(alloc, &put.value)?;
            Ok(StateOp::Upsert {
                key,
                value: StateValue::from_vec(text.into_bytes()),
                ttl: put.ttl,
            })
        }
    }
}

fn made_ops(alloc: Global, asked: Vec<AskedOp<'_>>) -> Result<Vec<StateOp>, Fault>
    ensures { Gives (λ ops. ops.items) result (read_all made_op asked.entry.items) }
{
    let mut ops = Vec::new(alloc);
    for op in asked {
        let made = made_op(alloc, op)?;
        ops.push(made)?;
    }
    Ok(ops)
}

fn size_error(error: StateError) -> BodyError
    ensures { result ≡ size_error error }
{
    match error {
        StateError::TooManyOps { .. } => BodyError::TooLarge { index: 1000 },
        StateError::KeyTooLong { op, .. } | StateError::ValueTooLong { op, .. } => {
            BodyError::TooLarge { index: op }
        }
        StateError::OutOfMemory => BodyError::OutOfMemory,
    }
}

// The operations, if none is too large.
fn sized(ops: Vec<StateOp>) -> Result<StateOps, Fault>
    ensures { Gives (λ ops. ops) result (sized ops.items (ops_fault ops.items)) }
{
    match StateRows::check(ops.as_slice()) {
        Ok(()) => Ok(StateOps::from_vec(ops)),
        Err(error) => Err(Fault::Refused {
            error: size_error(error),
        }),
    }
}

fn ops_in(alloc: Global, whole: &JsonRef<'_>) -> Result<StateOps, Fault>
    ensures { Gives (λ ops. ops) result (ops_in whole.now) }
{
    let items = elements(alloc, whole)?;
    let asked = asked_ops(alloc, &items)?;
    let ops = made_ops(alloc, asked)?;
    sized(ops)
}

fn ops_of(alloc: Global, body: &[u8]) -> Result<StateOps, Fault>
    ensures { Gives (λ ops. ops) result (ops_reading body.now) }
{
    let json = body_value(alloc, body)?;
    ops_in(alloc, &json.as_ref())
}

/// The operations of a transaction: at most 1,000, with keys of 1 to 256 bytes and values of at most 4,194,304. The
/// body's value takes up to about twenty-five times the body's length in memory while it is read.
pub fn read_ops(alloc: Global, body: &[u8]) -> Result<StateOps, BodyError>
    ensures { ReadsBody (ops_reading body.now) result }
{
    match ops_of(alloc, body) {
        Ok(ops) => Ok(ops),
        Err(fault) => Err(error_of(fault)),
    }
}
