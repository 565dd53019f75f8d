// What one word is.
ghost use Rattle.std.specs.Prelude.{◌≡◌, Some, None, map, option_map};
ghost use Rattle.command_words.specs.Options.{behind, name_and_value, option_word, begins_with_hyphen, value_or_next, flag_alone, kind_meaning, option_meaning, meaning_of};
ghost use Rattle.command_words.specs.Told.{told_kind, told_option, told_meaning};

use crate::options::{CommandOption, OptionKind, is_among, kind_of};

/// What a word after a command's name is.
#[derive(Clone, Copy)]
pub(crate) enum Meaning<'a> {
    /// A word that isn't allowed there.
    Refused,
    /// The name of an option whose value is the next word.
    Names(&'a str),
    /// The value of the option of this name; `true` for a flag.
    Gives(&'a str, &'a str),
}

/// What follows a first hyphen.
fn behind_hyphen(word: &str) -> Option<&str>
    ensures { option_map (λ s. s.now) result ≡ behind 45 word.now }
{
    word.strip_prefix('-')
}

/// Whether the first byte is a hyphen.
fn begins_with_hyphen(word: &str) -> bool
    ensures { result ≡ begins_with_hyphen word.now }
{
    match word.as_bytes() {
        [] => false,
        [byte, ..] => *byte == b'-',
    }
}

/// The name up to the first `=`, and the value after it, if there is one.
fn name_and_value(text: &str) -> (&str, Option<&str>)
    ensures { (result.0.now, option_map (λ s. s.now) result.1) ≡ name_and_value text.now }
{
    match text.split_once('=') {
        Some((name, value)) => (name, Some(value)),
        None => (text, None),
    }
}

/// What a word of two hyphens names, and the value in it.
fn option_word(word: &str) -> Option<(&str, Option<&str>)>
    ensures { option_map (λ p. (p.0.now, option_map (λ s. s.now) p.1)) result ≡ option_word word.now }
{
    let rest = behind_hyphen(behind_hyphen(word)?)?;
    if rest.is_empty() {
        return None;
    }
    Some(name_and_value(rest))
}

/// An option with the value in its word, or with the next word as its value.
fn value_or_next<'a>(name: &'a str, value: Option<&'a str>) -> Meaning<'a>
    ensures { told_meaning result ≡ value_or_next name.entry.now (option_map (λ s. s.now) value.entry) }
{
    match value {
        None => Meaning::Names(name),
        Some(value) => Meaning::Gives(name, value),
    }
}

/// A flag, which has no value in its word.
fn flag_alone<'a>(name: &'a str, value: Option<&'a str>) -> Meaning<'a>
    ensures { told_meaning result ≡ flag_alone name.entry.now (option_map (λ s. s.now) value.entry) }
{
    match value {
        None => Meaning::Gives(name, "true"),
        Some(_) => Meaning::Refused,
    }
}

/// What a name with perhaps a value is, if it is that of an option of this kind.
fn kind_meaning<'a>(name: &'a str, value: Option<&'a str>, kind: Option<OptionKind>) -> Meaning<'a>
    ensures { told_meaning result ≡ kind_meaning name.entry.now (option_map (λ s. s.now) value.entry) (option_map told_kind kind) }
{
    match kind {
        None => Meaning::Refused,
        Some(OptionKind::Needed | OptionKind::Optional) => value_or_next(name, value),
        Some(OptionKind::Flag) => flag_alone(name, value),
    }
}

/// What a word is if no option waits for its value.
fn option_meaning<'a>(options: &[CommandOption], names: &[&str], word: &'a str) -> Meaning<'a>
    ensures { told_meaning result ≡ option_meaning (map told_option options.now) (map (λ n. n.now) names.now) (option_word word.entry.now) }
{
    match option_word(word) {
        None => Meaning::Refused,
        Some((name, value)) => {
            if is_among(names, name) {
                Meaning::Refused
            } else {
                kind_meaning(name, value, kind_of(options, name))
            }
        }
    }
}

/// What a word is after the options of these names; `awaited` is an option that still needs its value.
pub(crate) fn meaning_of<'a>(
    options: &[CommandOption],
    names: &[&str],
    awaited: Option<&'a str>,
    word: &'a str,
) -> Meaning<'a>
    ensures { told_meaning result ≡ meaning_of (map told_option options.now) (map (λ n. n.now) names.now) (option_map (λ n. n.now) awaited.entry) word.entry.now }
{
    match awaited {
        None => option_meaning(options, names, word),
        Some(name) => {
            if begins_with_hyphen(word) {
                Meaning::Refused
            } else {
                Meaning::Gives(name, word)
            }
        }
    }
}
