// Scripts: words and the input of a command, of which some reads or writes may fail, and what the command printed.
mod case;
mod printed;
mod repeated;

pub(crate) use case::{Case, read_words};
pub(crate) use printed::print_script;
