// A session of HTTP: the requests of a connection, answered in order, whatever answers them.
//
// Promise: a response is written whole, or a prefix of it if the connection failed, and the last one of a connection says
// so; bytes that have no reading are refused as they are said to be, and each end has its cause (`specs/Sessions`). What
// answers requests keeps the loop. Depends on `http_edge`, `actor_ports` and `lists_and_limits`.
#![tactic(auto)]

mod closing;
mod ends;

pub use closing::write_sent;
pub use ends::{cut_end, end_unread};
