// Why operations are refused, apart from running out of memory.
ghost use Rattle.std.specs.Prelude.{◌≡◌, ◌≤◌, length};
ghost use Rattle.state_rows.specs.Checks.{key_fault, value_fault, op_fault, first_fault, ops_fault};

use crate::error::StateError;
use crate::op::StateOp;
use crate::text::{StateKey, StateValue};

/// The most operations of a transaction.
pub const MOST_OPS: usize = 1000;

/// The most bytes of a key.
pub const MOST_KEY_BYTES: usize = 256;

/// The most bytes of a value.
pub const MOST_VALUE_BYTES: usize = 4_194_304;

// The fault of a key.
fn key_fault(op: u64, key: &StateKey) -> Option<StateError>
    ensures { result ≡ key_fault op key.now }
{
    let n = key.as_str().len();
    if n == 0 || n > MOST_KEY_BYTES {
        return Some(StateError::KeyTooLong { op, n: n as u64 });
    }
    None
}

// The fault of a value.
fn value_fault(op: u64, value: &StateValue) -> Option<StateError>
    ensures { result ≡ value_fault op value.now }
{
    let n = value.as_slice().len();
    if n > MOST_VALUE_BYTES {
        return Some(StateError::ValueTooLong { op, n: n as u64 });
    }
    None
}

// The first fault of an operation.
fn op_fault(at: u64, op: &StateOp) -> Option<StateError>
    ensures { result ≡ op_fault at op.now }
{
    match op {
        StateOp::Upsert { key, value, .. } => match key_fault(at, key) {
            None => value_fault(at, value),
            Some(fault) => Some(fault),
        },
        StateOp::Delete { key } => key_fault(at, key),
    }
}

// The fault of the first operation at fault.
fn first_fault(ops: &[StateOp]) -> Option<StateError>
    requires { length ops.now ≤ 1000 }
    ensures { result ≡ first_fault 0 ops.now }
{
    let mut at: u64 = 0;
    for op in ops {
        if let Some(fault) = op_fault(at, op) {
            return Some(fault);
        }
        at += 1;
    }
    None
}

/// Why the operations are refused; `None` if they aren't.
pub(crate) fn ops_fault(ops: &[StateOp]) -> Option<StateError>
    ensures { result ≡ ops_fault ops.now }
{
    let n = ops.len();
    if n > MOST_OPS {
        return Some(StateError::TooManyOps { n: n as u64 });
    }
    first_fault(ops)
}
