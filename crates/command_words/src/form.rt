// Whether words are options of a command.
ghost use Rattle.std.specs.Prelude.{◌≡◌, IfOk, IfErr, map, is_some, string_bytes};
ghost use Rattle.command_words.specs.declared.error.WordsError.TheVariants.{OutOfMemory};
ghost use Rattle.command_words.specs.Options.{options_given};
ghost use Rattle.command_words.specs.Told.{told_option};

use crate::error::WordsError;
use crate::meaning::{Meaning, meaning_of};
use crate::options::{CommandOption, has_needed};
use std::alloc::Global;

/// Whether all the words are options of the command, each with its value and at most once, and no option that the
/// command needs is missing.
pub(crate) fn is_form(
    alloc: Global,
    options: &[CommandOption],
    words: &[String],
) -> Result<bool, WordsError>
    ensures form { IfOk result (λ is. is ≡ is_some (options_given (map told_option options.now) (map string_bytes words.now))) }
    ensures err { IfErr result (λ e. e ≡ OutOfMemory) }
{
    let mut names = Vec::new(alloc);
    let mut awaited = None;
    for word in words {
        match meaning_of(options, names.as_slice(), awaited, word.as_str()) {
            Meaning::Refused => return Ok(false),
            Meaning::Names(name) => awaited = Some(name),
            Meaning::Gives(name, _) => {
                names.push(name)?;
                awaited = None;
            }
        }
    }
    Ok(awaited.is_none() && has_needed(options, names.as_slice()))
}
