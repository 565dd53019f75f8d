// What all crates share: the out-of-memory error, the last number, decimal numbers in texts, bytes and texts that are
// kept as they were given.
//
// Promise: a decimal is read exactly if it is the one spelling of its number. Depends on nothing.
#![tactic(auto)]

mod bytes;
mod decimal;
mod limit;
mod memory;
mod text;

pub use bytes::Bytes;
pub use decimal::read_decimal;
pub use limit::LAST_NUMBER;
pub use memory::OutOfMemory;
pub use text::Text;
