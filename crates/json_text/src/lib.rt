// JSON: the value of a text, and the text of a value.
//
// Promise: unless memory runs out, a text is read exactly if it has a value (`specs/Reading`); each look-up is that
// of the value (`specs/Values`); and what is written is the text of the value (`specs/Texts`), which reads back as
// that value. It depends on serde_json.
#![tactic(auto)]

mod error;
mod other_number;
mod value;
mod writing;

pub use error::JsonError;
pub use value::{Json, JsonRef};
pub use writing::{Member, Piece, array_text, object_text, quoted_text};
