// The operations of a fenced transaction.
ghost use Rattle.std.specs.Prelude.{◌≡◌, ◌≤◌, length, IfOk};
ghost use Rattle.fence_rows.specs.Epochs.{is_epoch_key, key_of, fenced_ops};
ghost use Rattle.fence_rows.specs.Fences.{reserved_from};

use crate::epoch::{epoch_upsert, is_epoch_key};
use actor_names::OutOfMemory;
use frame_wire::StateOps;
use state_rows::StateOp;
use std::alloc::Global;

// Whether the operation names the key of the epoch.
fn names_epoch(op: &StateOp) -> bool
    ensures { result ≡ is_epoch_key (key_of op.now) }
{
    match op {
        StateOp::Upsert { key, .. } => is_epoch_key(key),
        StateOp::Delete { key } => is_epoch_key(key),
    }
}

/// The index of the first operation that names the key of the epoch.
pub(crate) fn reserved_op(ops: &[StateOp]) -> Option<u32>
    requires { length ops.now ≤ 65535 }
    ensures { result ≡ reserved_from 0 ops.now }
{
    let mut at: u32 = 0;
    for op in ops {
        if names_epoch(op) {
            return Some(at);
        }
        at += 1;
    }
    None
}

/// The operations, and behind them the one that sets the epoch.
pub(crate) fn with_epoch(alloc: Global, ops: StateOps, epoch: u64) -> Result<StateOps, OutOfMemory>
    ensures { IfOk result (λ fenced. fenced ≡ fenced_ops epoch ops) }
{
    let op = epoch_upsert(alloc, epoch)?;
    let mut items = ops.into_vec();
    items.push(op)?;
    Ok(StateOps::from_vec(items))
}
