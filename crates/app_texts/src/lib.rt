// What the sidecar says to its application and to a peer sidecar, and what both answer: the application's
// configuration, the requests that are sent, and the reading of a peer's reply.
//
// Promise: a configuration says exactly what its definition says (`specs/Config`); each request's text is the stated
// one, byte for byte (`specs/Texts`); a peer's reply is read exactly (`specs/PeerReplies`). Depends on `call_names`,
// `http_edge`, `json_text`, `part_model`, `place_table`, `schedule_text`, `actor_names` and `percent_encoding`.
#![tactic(auto)]

mod callbacks;
mod calls;
mod config;
mod config_error;
mod config_key;
mod escaping;
mod fields;
mod forms;
mod groups;
mod hosting;
mod lines;
mod owner;
mod peer;
mod peer_reply;
mod plain;
mod requests;
mod text;
mod treatment;
mod word;

pub use callbacks::{Callback, reminder_request, timer_request};
pub use calls::{MethodCall, invoke_text};
pub use config::{AppConfig, read_config};
pub use config_error::{ConfigError, KeyText};
pub use fields::first_value;
pub use peer::{PeerCall, peer_request};
pub use peer_reply::{PeerReply, read_peer_reply};
pub use plain::{config_request, deactivate_request};
pub use word::{RefusalWord, read_word};
