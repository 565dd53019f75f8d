// HTTP/1.1 messages over connections: reading requests, writing responses, and one whole exchange.
//
// Promise: however the bytes are cut, what is read is what the grammar says of them, and each refusal has its
// cause. Heads are read by httparse. It depends on actor_ports and lists_and_limits.
#![tactic(auto)]

mod arrivals;
mod body;
mod carry;
mod content;
mod error;
mod exchanging;
mod fields;
mod form;
mod head;
mod law;
mod message;
mod parts;
mod reader;
mod replies;
mod writing;

pub use body::Body;
pub use carry::{receive, send};
pub use error::EdgeError;
pub use exchanging::{exchange, exchange_text};
pub use law::{reply_law, request_law};
pub use lists_and_limits::Bytes;
pub use message::{HttpField, HttpFields, HttpRequest, HttpResponse};
pub use reader::RequestReader;
pub use writing::write_response;
