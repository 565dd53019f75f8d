// The state of actors: values under keys, and transactions on them.
//
// Promise: the entries are a list in order of actor and key, each once. `prepare` takes all the memory that a
// transaction needs, and `apply` then makes its operations one after another (`specs/Entries`), which can't fail. It
// depends on `search_tree`, `actor_names` and `lists_and_limits`.
#![tactic(auto)]

mod check;
mod entry;
mod error;
mod law;
mod op;
mod prepared;
mod rows;
mod standing;
mod text;

pub use check::{MOST_KEY_BYTES, MOST_OPS, MOST_VALUE_BYTES};
pub use entry::StateEntry;
pub use error::StateError;
pub use law::state_law;
pub use op::StateOp;
pub use prepared::PreparedTx;
pub use rows::StateRows;
pub use text::{StateKey, StateValue};
