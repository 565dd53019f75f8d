// Operations on the state of an actor, read from the start of some bytes and appended to others.
ghost use Rattle.std.specs.Prelude.{◌≡◌, ◌++◌, None, OnOk};
ghost use Rattle.state_rows.specs.declared.op.StateOp.TheVariants.{Upsert, Delete};
ghost use Rattle.wire_fields.specs.Fields.{maybe, both, row, many_at, spell_all, in_any_order, AllFit};
ghost use Rattle.wire_fields.specs.Gives.{Gives};
ghost use Rattle.wire_fields.specs.Records.{text, blob, ttl, op, ops_list};

use crate::fault::Fault;
use crate::numbers::{put_tag, put_u16, put_u32, u16_at, u32_at};
use crate::texts::{blob_at, put_blob, put_text, text_at};
use lists_and_limits::OutOfMemory;
use state_rows::{StateKey, StateOp, StateValue};
use std::alloc::Global;

/// The most seconds that an entry may live.
pub const MOST_TTL_SECONDS: u32 = 315_360_000;

#[tactic(auto, unfolding(crate::specs::Records::ttl))]
fn ttl_at(rest: &mut &[u8]) -> Result<u32, Fault>
    ensures { Gives (λ x. (x, rest.new.now)) result (ttl.at rest.old.now) }
{
    let left = rest.len();
    let n = u32_at(rest)?;
    if n == 0 || n > MOST_TTL_SECONDS {
        return Err(Fault::Field { left });
    }
    Ok(n)
}

fn maybe_ttl_at(rest: &mut &[u8]) -> Result<Option<u32>, Fault>
    ensures { Gives (λ x. (x, rest.new.now)) result ((maybe ttl).at rest.old.now) }
{
    match *rest {
        [0, others @ ..] => {
            *rest = others;
            Ok(None)
        }
        [1, others @ ..] => {
            *rest = others;
            let ttl = ttl_at(rest)?;
            Ok(Some(ttl))
        }
        _ => Err(Fault::Field { left: rest.len() }),
    }
}

fn upsert_at(alloc: Global, rest: &mut &[u8]) -> Result<StateOp, Fault>
    ensures { Gives (λ x. (x, rest.new.now)) result (row (both text (both blob (maybe ttl))) (λ p. Upsert p.0 p.1.0 p.1.1) rest.old.now) }
{
    let key = StateKey::from_string(text_at(alloc, rest)?);
    let value = StateValue::from_vec(blob_at(alloc, rest)?);
    let ttl = maybe_ttl_at(rest)?;
    Ok(StateOp::Upsert { key, value, ttl })
}

fn delete_at(alloc: Global, rest: &mut &[u8]) -> Result<StateOp, Fault>
    ensures { Gives (λ x. (x, rest.new.now)) result (row text (λ key. Delete key) rest.old.now) }
{
    let key = StateKey::from_string(text_at(alloc, rest)?);
    Ok(StateOp::Delete { key })
}

#[tactic(auto, unfolding(crate::specs::Records::op))]
fn op_at(alloc: Global, rest: &mut &[u8]) -> Result<StateOp, Fault>
    ensures { Gives (λ x. (x, rest.new.now)) result (op.at rest.old.now) }
{
    match *rest {
        [1, others @ ..] => {
            *rest = others;
            upsert_at(alloc, rest)
        }
        [2, others @ ..] => {
            *rest = others;
            delete_at(alloc, rest)
        }
        _ => Err(Fault::Field { left: rest.len() }),
    }
}

fn op_list_at(alloc: Global, count: u16, rest: &mut &[u8]) -> Result<Vec<StateOp>, Fault>
    ensures { Gives (λ x. (x.items, rest.new.now)) result (many_at (in_any_order op) None count rest.old.now) }
{
    let mut ops = Vec::new(alloc);
    for _ in 0..count {
        let op = op_at(alloc, rest)?;
        ops.push(op)?;
    }
    Ok(ops)
}

/// Reads operations behind their count of two bytes.
#[tactic(auto, unfolding(crate::specs::Records::ops_list))]
pub fn ops_at(alloc: Global, rest: &mut &[u8]) -> Result<Vec<StateOp>, Fault>
    ensures { Gives (λ x. (x.items, rest.new.now)) result (ops_list.at rest.old.now) }
{
    let count = u16_at(rest)?;
    op_list_at(alloc, count, rest)
}

fn put_maybe_ttl(out: &mut Vec<u8>, seconds: Option<u32>) -> Result<(), OutOfMemory>
    ensures { OnOk result (out.new.items ≡ out.old.items ++ (maybe ttl).spell seconds) }
{
    match seconds {
        None => put_tag(out, 0),
        Some(seconds) => {
            put_tag(out, 1)?;
            put_ttl(out, seconds)
        }
    }
}

#[tactic(auto, unfolding(crate::specs::Records::ttl))]
fn put_ttl(out: &mut Vec<u8>, seconds: u32) -> Result<(), OutOfMemory>
    ensures { OnOk result (out.new.items ≡ out.old.items ++ ttl.spell seconds) }
{
    put_u32(out, seconds)
}

#[tactic(auto, unfolding(crate::specs::Records::op))]
fn put_op(out: &mut Vec<u8>, one: &StateOp) -> Result<(), OutOfMemory>
    requires { op.Fits one.now }
    ensures { OnOk result (out.new.items ≡ out.old.items ++ op.spell one.now) }
{
    match one {
        StateOp::Upsert { key, value, ttl } => {
            put_tag(out, 1)?;
            put_text(out, key.as_str())?;
            put_blob(out, value.as_slice())?;
            put_maybe_ttl(out, *ttl)
        }
        StateOp::Delete { key } => {
            put_tag(out, 2)?;
            put_text(out, key.as_str())
        }
    }
}

fn put_op_list(out: &mut Vec<u8>, ops: &[StateOp]) -> Result<(), OutOfMemory>
    requires { AllFit (in_any_order op) None ops.now }
    ensures { OnOk result (out.new.items ≡ out.old.items ++ spell_all op.spell ops.now) }
{
    for one in ops {
        put_op(out, one)?;
    }
    Ok(())
}

/// Appends at most 65,535 operations behind their count of two bytes.
#[tactic(auto, unfolding(crate::specs::Records::ops_list, crate::specs::Fields::number16))]
pub fn put_ops(out: &mut Vec<u8>, ops: &[StateOp]) -> Result<(), OutOfMemory>
    requires { ops_list.Fits ops.now }
    ensures { OnOk result (out.new.items ≡ out.old.items ++ ops_list.spell ops.now) }
{
    put_u16(out, ops.len() as u16)?;
    put_op_list(out, ops)
}
