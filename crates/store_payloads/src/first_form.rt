// Payloads of the first form, in which no space stood.
ghost use Rattle.std.specs.Prelude.{◌≡◌, ◌++◌, None, Some, if◌then◌else◌, option_map, IfOk, OnOk};
ghost use Rattle.store_payloads.specs.Fits.{PayloadFits};
ghost use Rattle.store_payloads.specs.FirstForm.{default_space, is_stamped, stamp_length, spaced_stamp, spaced_fields, spaced, is_short_op, are_short, is_short_command, is_short, first_reading, reading_in};
ghost use Rattle.store_payloads.specs.Gives.{GivesPart};

use crate::error::PayloadError;
use crate::payload::{PayloadBody, StorePayload};
use crate::reading::read_payload;
use actor_names::OutOfMemory;
use frame_wire::StoreCommand;
use state_rows::StateOp;
use std::alloc::Global;

// The space `default`, as its field spells it.
const DEFAULT_SPACE: &[u8] = b"\x07default";

const MOST_VALUE_BYTES: usize = 1_048_576;

fn put_bytes(out: &mut Vec<u8>, bytes: &[u8]) -> Result<(), OutOfMemory>
    ensures { OnOk result (out.new.items ≡ out.old.items ++ bytes.now) }
{
    out.extend_from_slice(bytes)?;
    Ok(())
}

fn put_space(out: &mut Vec<u8>) -> Result<(), OutOfMemory>
    ensures { OnOk result (out.new.items ≡ out.old.items ++ default_space) }
{
    put_bytes(out, DEFAULT_SPACE)
}

fn is_stamped(kind: u8) -> bool
    ensures { result ≡ is_stamped kind }
{
    kind == 33 || kind == 35 || kind == 37 || kind == 39
}

fn stamp_length(fields: &[u8]) -> usize
    ensures { result ≡ stamp_length fields.now }
{
    let [n, ..] = fields else {
        return 1;
    };
    18 + *n as usize
}

// Appends the fields of a stamp and what stands behind it, if the stamp is whole.
fn put_stamped(out: &mut Vec<u8>, n: usize, fields: &[u8]) -> Result<bool, OutOfMemory>
    ensures { IfOk result (λ done. option_map (λ fs. out.old.items ++ fs) (spaced_stamp n fields.now) ≡ (if done then Some out.new.items else None)) }
{
    if fields.len() < n {
        return Ok(false);
    }
    let (stamp, others) = fields.split_at(n);
    put_space(out)?;
    put_bytes(out, stamp)?;
    put_space(out)?;
    put_bytes(out, others)?;
    Ok(true)
}

// Appends the fields of a kind, with a space wherever one stands now; false if they end too early.
fn put_fields(out: &mut Vec<u8>, kind: u8, fields: &[u8]) -> Result<bool, OutOfMemory>
    ensures { IfOk result (λ done. option_map (λ fs. out.old.items ++ fs) (spaced_fields kind fields.now) ≡ (if done then Some out.new.items else None)) }
{
    if is_stamped(kind) {
        return put_stamped(out, stamp_length(fields), fields);
    }
    put_space(out)?;
    put_bytes(out, fields)?;
    Ok(true)
}

// The payload with the space `default` wherever one stands now.
#[tactic(auto, unfolding(crate::specs::FirstForm::spaced))]
fn spaced(alloc: Global, payload: &[u8]) -> Result<Option<Vec<u8>>, OutOfMemory>
    ensures { IfOk result (λ bytes. option_map (λ v. v.items) bytes ≡ spaced payload.now) }
{
    let [a, b, c, d, e, f, g, h, kind, fields @ ..] = payload else {
        return Ok(None);
    };
    let head = [*a, *b, *c, *d, *e, *f, *g, *h, *kind];
    let mut out = Vec::from_slice(alloc, &head)?;
    if !put_fields(&mut out, *kind, fields)? {
        return Ok(None);
    }
    Ok(Some(out))
}

fn is_short_op(op: &StateOp) -> bool
    ensures { result ≡ is_short_op op.now }
{
    match op {
        StateOp::Upsert { value, .. } => value.as_slice().len() <= MOST_VALUE_BYTES,
        StateOp::Delete { .. } => true,
    }
}

fn are_short(ops: &[StateOp]) -> bool
    ensures { result ≡ are_short ops.now }
{
    for op in ops {
        if !is_short_op(op) {
            return false;
        }
    }
    true
}

fn is_short_command(command: &StoreCommand) -> bool
    ensures { result ≡ is_short_command command.now }
{
    match command {
        StoreCommand::Tx { ops, .. } => are_short(ops.as_slice()),
        StoreCommand::Boot { .. }
        | StoreCommand::Get { .. }
        | StoreCommand::PutReminder { .. }
        | StoreCommand::GetReminder { .. }
        | StoreCommand::DeleteReminder { .. }
        | StoreCommand::Due { .. }
        | StoreCommand::Fired { .. } => true,
    }
}

fn is_short(body: &PayloadBody) -> bool
    ensures { result ≡ is_short body.now }
{
    match body {
        PayloadBody::Command { command } => is_short_command(command),
        PayloadBody::Row { .. } => true,
    }
}

// Reads a payload of the first form in the space `default`. `NoReading` exactly if it isn't one.
fn read_first(alloc: Global, payload: &[u8]) -> Result<StorePayload, PayloadError>
    ensures reading { GivesPart result (first_reading payload.now) }
    ensures fits { IfOk result (λ p. PayloadFits p) }
{
    let bytes = match spaced(alloc, payload) {
        Ok(Some(bytes)) => bytes,
        Ok(None) => return Err(PayloadError::NoReading),
        Err(_) => return Err(PayloadError::OutOfMemory),
    };
    let read = read_payload(alloc, bytes.as_slice())?;
    if !is_short(&read.body) {
        return Err(PayloadError::NoReading);
    }
    Ok(read)
}

/// Reads a payload of today's form, or one of the first form, in the space `default`.
pub(crate) fn read_in(
    alloc: Global,
    payload: &[u8],
    is_first: bool,
) -> Result<StorePayload, PayloadError>
    ensures reading { GivesPart result (reading_in is_first payload.now) }
    ensures fits { IfOk result (λ p. PayloadFits p) }
{
    if is_first {
        return read_first(alloc, payload);
    }
    read_payload(alloc, payload)
}
