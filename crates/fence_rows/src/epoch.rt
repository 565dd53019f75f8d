// The epoch of an actor, as the value of a key of its state.
ghost use Rattle.std.specs.Prelude.{◌≡◌, Some, IfOk, decimal};
ghost use Rattle.fence_rows.specs.Epochs.{epoch_key, is_epoch_key, epoch_in, epoch_upsert};

use actor_names::OutOfMemory;
use itoa::Buffer;
use lists_and_limits::read_decimal;
use state_rows::{StateKey, StateOp, StateValue};
use std::alloc::Global;

// The key of each actor's state at which its epoch stands.
const EPOCH_KEY: &str = "actors.epoch";

/// The key, as a key of a command.
pub(crate) fn epoch_key(alloc: Global) -> Result<StateKey, OutOfMemory>
    ensures { IfOk result (λ key. key ≡ epoch_key) }
{
    let text = String::from_str(alloc, EPOCH_KEY)?;
    Ok(StateKey::from_string(text))
}

/// Whether it is the key.
pub(crate) fn is_epoch_key(key: &StateKey) -> bool
    ensures { result ≡ is_epoch_key key.now }
{
    key.as_str() == EPOCH_KEY
}

/// The epoch that a value is the text of, and 0 if it is no such text.
pub(crate) fn epoch_in(value: &StateValue) -> u64
    ensures { result ≡ epoch_in (Some value.now) }
{
    match read_decimal(value.as_slice(), u64::MAX) {
        Some(epoch) => epoch,
        None => 0,
    }
}

// The text of an epoch.
fn epoch_value(alloc: Global, epoch: u64) -> Result<StateValue, OutOfMemory>
    ensures { IfOk result (λ value. value ≡ decimal epoch) }
{
    let mut buffer = Buffer::new();
    StateValue::from_slice(alloc, buffer.format(epoch).as_bytes())
}

/// The operation that sets the epoch, for good.
pub(crate) fn epoch_upsert(alloc: Global, epoch: u64) -> Result<StateOp, OutOfMemory>
    ensures { IfOk result (λ op. op ≡ epoch_upsert epoch) }
{
    let key = epoch_key(alloc)?;
    let value = epoch_value(alloc, epoch)?;
    Ok(StateOp::Upsert {
        key,
        value,
        ttl: None,
    })
}
