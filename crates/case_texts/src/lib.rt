// Bytes and texts as the tables of cases write them.
//
// It promises nothing: the programs that read and print such tables show what others promise. Depends on nothing.
#![tactic(auto)]

mod escaped;
mod hex;
mod pieces;

pub use escaped::{add_escaped, escaped_bytes};
pub use hex::{add_hex, hex_bytes};
pub use pieces::{add, cut};
