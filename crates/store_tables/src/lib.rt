// What the store contains, and what each command is answered and makes of it, without a disk.
//
// Promise: a command is told an answer and changes nothing, or it is accepted and leaves the tables of `store_outcome`
// (`specs/Tables`). Of all lists of commands, no stamp is accepted twice (`outcome_law`). After `prepare` an `apply`
// can't fail. It depends on `frame_wire`, `wire_fields`, `stamp_lanes`, `state_rows`, `reminder_rows`,
// `schedule_text`, `actor_names` and `lists_and_limits`.
#![tactic(auto)]

mod answers;
mod dues;
mod law;
mod moments;
mod prepared;
mod row;
mod tables;

pub use law::outcome_law;
pub use prepared::PreparedCommand;
pub use row::{LaneNumbers, RowKey, TableRow};
pub use tables::StoreTables;
