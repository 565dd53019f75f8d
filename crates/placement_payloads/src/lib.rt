// The payloads of the placement's journal: what changed in its rooms, one entry for each room that changed.
//
// Promise: a payload is written as its only spelling, and read exactly (`specs/Payloads`). It depends on `wire_fields`,
// `round_core`, `member_roster`, `place_table`, `actor_names` and `lists_and_limits`.
#![tactic(auto)]

mod entry;
mod error;
mod hosts;
mod law;
mod members;
mod payload;

pub use entry::RoomEntry;
pub use error::PayloadError;
pub use law::payload_law;
pub use payload::{MOST_ENTRIES, put_entry, put_payload_start, read_payload};
