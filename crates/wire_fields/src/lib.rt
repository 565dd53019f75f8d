// The fields of which the frames between processes and the records of journals are made.
//
// Promise: a value is written as its only spelling and read from the start of some bytes, by the same definition
// (`specs/Fields`, `specs/Parts`, `specs/Records`); a fault names the first byte of the first field that fails. It
// depends on `state_rows`, `reminder_rows`, `place_table`, `schedule_text`, `actor_names` and `lists_and_limits`.
#![tactic(auto)]

mod actors;
mod fault;
mod members;
mod names;
mod numbers;
mod ops;
mod ranges;
mod reminders;
mod schedules;
mod texts;

pub use actors::{actor_at, due_key_at, put_actor, put_due_key};
pub use fault::{Fault, name_fault};
pub use members::{
    host_at, hosts_at, member_at, node_place_at, put_host, put_hosts, put_member, put_node_place,
    put_stage, put_types, stage_at, types_at,
};
pub use names::{
    app_at, id_at, node_at, put_app, put_id, put_node, put_record_name, put_space, put_type,
    record_name_at, space_at, type_at,
};
pub use numbers::{
    byte_at, long_bytes_at, middle_bytes_at, put_byte, put_long_bytes, put_middle_bytes,
    put_short_bytes, put_tag, put_u16, put_u32, put_u64, short_bytes_at, u16_at, u32_at, u64_at,
};
pub use ops::{MOST_TTL_SECONDS, ops_at, put_ops};
pub use ranges::{
    boot_at, counter_at, fixed_at, flag_at, put_boot, put_counter, put_flag, put_small, small_at,
};
pub use reminders::{
    payload_at, put_payload, put_reminder, put_reminder_text, reminder_at, reminder_text_at,
};
pub use schedules::{
    left_at, moment_at, next_at, put_left, put_moment, put_next, put_schedule, schedule_at,
};
pub use texts::{blob_at, put_blob, put_text, text_at};
