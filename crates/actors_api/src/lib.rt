// The actors API over HTTP: requests as commands, replies as responses.
//
// Promise: a request is read as the command that its route, names, fields and body say, or refused with the first
// cause (`specs/Commands`), and each reply is one stated response (`specs/Responses`). It depends on `call_names`,
// `api_bodies`, `http_edge`, `json_text`, `frame_wire`, `place_table`, `timer_book`, `reminder_rows`, `state_rows`, `schedule_text`,
// `actor_names` and `lists_and_limits`. Escapes are read by `percent_encoding`.
#![tactic(auto)]

mod action;
mod command;
mod content;
mod fault;
mod names;
mod owner;
mod path;
mod reading;
mod refusal;
mod refusal_text;
mod reply;
mod response;
mod side;
mod text;

pub use command::ApiCommand;
pub use reading::read_api;
pub use refusal::{ApiName, ApiRefusal, edge_refusal, timer_refusal};
pub use reply::ApiReply;
pub use response::{copy_response, no_memory, write_api};
pub use side::Side;
