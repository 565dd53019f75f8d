// The store over its journal: each accepted command is on the disk before it is answered.
//
// Promise: the contents are the fold of the accepted commands (`specs/Contents`), and a crash at any moment leaves what
// was acknowledged, perhaps with the command under way (`specs/Store`, `specs/Runs`). It depends on `store_payloads`,
// `store_tables`, `frame_wire`, `tx_journal`, `state_machine`, `disk_model` and `actor_names`.
#![tactic(auto)]

mod compaction;
mod ending;
mod events;
mod guard;
mod law;
mod machine;
mod migration;
mod opening;
mod staging;
mod store;

pub use events::{CompactEnd, StoreEvent, StoreOutcome};
pub use guard::{Guard, Guarded};
pub use law::store_law;
pub use store::Store;
