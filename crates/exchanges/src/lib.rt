// Exchanges over a link: one of HTTP with an address, one of a frame over a connection, and one with the store.
//
// Promise: what a dialler was made to do is a list of exchanges (`specs/Exchanges`): `exchange_at`, `exchange_text_at`,
// `exchange_waiting`, `ask_store` and `ask_fenced` make at most one, with the place of the address, over which the request's text and its
// reply went (`specs/Replies`), or the command's frame and the answer's, or bytes that are none (`specs/Asked`); each
// link that was dialled is given back. Of `exchange_frame` the bytes written are the frame's spelling, and the bytes
// read are that of the frame answered, and no more; a refusal has its place (`specs/FrameExchanges`). Depends on
// `frame_wire`, `wire_fields`, `http_edge`, `actor_ports` and `actor_names`.
#![tactic(auto)]

mod answer;
mod asking;
mod fits;
mod frame_end;
mod frame_exchanging;
mod front;
mod http_exchanging;
mod links;
mod reading;
mod rows;
mod store_end;
mod text;
mod text_exchanging;

pub use asking::{ask_fenced, ask_store};
pub use frame_end::FrameEnd;
pub use frame_exchanging::exchange_frame;
pub use http_exchanging::{exchange_at, exchange_waiting};
pub use links::Links;
pub use store_end::StoreEnd;
pub use text_exchanging::exchange_text_at;
