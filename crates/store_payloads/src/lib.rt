// The payloads of the store's journal: how commands and the rows of a snapshot are spelled and read, and what they lead
// to.
//
// Promise: a payload is read exactly (`specs/Payloads`), and payloads one after another lead to the tables of
// `fold_from` (`specs/Folds`). It depends on `store_tables`, `frame_wire`, `wire_fields`, `stamp_lanes`, `state_rows`,
// `reminder_rows`, `schedule_text`, `actor_names` and `lists_and_limits`.
#![tactic(auto)]

mod error;
mod first_form;
mod fold;
mod lanes;
mod law;
mod payload;
mod reading;
mod rows;
mod writing;

pub use error::PayloadError;
pub use fold::StoreFold;
pub use law::payload_law;
pub use payload::{PayloadBody, StorePayload};
pub use reading::read_payload;
pub use writing::{
    put_boot_row, put_lane_row, put_reminder_row, put_state_row, write_command_payload,
};
