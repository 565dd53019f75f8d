// Frames on connections between the processes of a cluster.
//
// Promise: a frame is written as its only spelling (`specs/Frames`, `specs/Store`), and a stream gives, in whatever
// pieces it comes, the frames that it spells, and then its first fault (`specs/Streams`). It depends on `wire_fields`,
// `state_rows`, `reminder_rows`, `place_table`, `schedule_text`, `actor_names` and `lists_and_limits`.
#![tactic(auto)]

mod command_bytes;
mod error;
mod fields;
mod frame;
mod hosts;
mod kind;
mod law;
mod look;
mod mirror;
mod mirrors;
mod reader;
mod reading;
mod refusal;
mod refusals;
mod store_answer;
mod store_answers;
mod store_command;
mod store_commands;
mod store_kind;
mod store_refusal;
mod store_refusals;
mod writer;

pub use command_bytes::{read_command, write_command};
pub use error::FrameError;
pub use frame::Frame;
pub use hosts::Hosts;
pub use law::{command_law, frame_law};
pub use look::MOST_PAYLOAD;
pub use mirror::{MOST_PIECE, MirrorAnswer, MirrorCommand};
pub use mirrors::write_piece;
pub use reader::FrameReader;
pub use reading::{is_reading_of, is_reading_of_tx};
pub use refusal::Refusal;
pub use store_answer::{DueEntries, DueEntry, StoreAnswer};
pub use store_command::{Stamp, StateOps, StoreCommand};
pub use store_commands::MOST_DUE;
pub use store_refusal::StoreRefusal;
pub use writer::write_frame;
