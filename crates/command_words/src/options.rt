// The options of a command.
ghost use Rattle.std.specs.Prelude.{◌≡◌, map, option_map};
ghost use Rattle.command_words.specs.Options.{Needed, Optional, Flag, kind_of, is_among, is_needed, has_needed};
ghost use Rattle.command_words.specs.Told.{told_kind, told_option};

/// How a command takes an option.
#[derive(Clone, Copy)]
pub(crate) enum OptionKind {
    /// With a value; the command needs it.
    Needed,
    /// With a value; it may be given.
    Optional,
    /// Without a value; it may be given.
    Flag,
}

/// An option of a command.
#[derive(Clone, Copy)]
pub(crate) struct CommandOption<'a> {
    /// The name, without the two hyphens.
    pub(crate) name: &'a str,
    /// Whether it has a value, and whether the command needs it.
    pub(crate) kind: OptionKind,
}

/// An option that the command needs.
pub(crate) fn needed(name: &str) -> CommandOption<'_>
    ensures { told_option result ≡ (name.entry.now, Needed) }
{
    CommandOption {
        name,
        kind: OptionKind::Needed,
    }
}

/// An option that may be given.
pub(crate) fn optional(name: &str) -> CommandOption<'_>
    ensures { told_option result ≡ (name.entry.now, Optional) }
{
    CommandOption {
        name,
        kind: OptionKind::Optional,
    }
}

/// An option without a value, which may be given.
pub(crate) fn flag(name: &str) -> CommandOption<'_>
    ensures { told_option result ≡ (name.entry.now, Flag) }
{
    CommandOption {
        name,
        kind: OptionKind::Flag,
    }
}

/// Whether the command needs an option of this kind.
pub(crate) fn is_needed(kind: OptionKind) -> bool
    ensures { result ≡ is_needed (told_kind kind) }
{
    match kind {
        OptionKind::Needed => true,
        OptionKind::Optional => false,
        OptionKind::Flag => false,
    }
}

/// The kind of the option of this name.
pub(crate) fn kind_of(options: &[CommandOption], name: &str) -> Option<OptionKind>
    ensures { option_map told_kind result ≡ kind_of (map told_option options.now) name.now }
{
    for option in options {
        if option.name == name {
            return Some(option.kind);
        }
    }
    None
}

/// Whether the name is among these.
pub(crate) fn is_among(names: &[&str], name: &str) -> bool
    ensures { result ≡ is_among (map (λ n. n.now) names.now) name.now }
{
    for other in names {
        if *other == name {
            return true;
        }
    }
    false
}

/// Whether each option that is needed is among these names.
pub(crate) fn has_needed(options: &[CommandOption], names: &[&str]) -> bool
    ensures { result ≡ has_needed (map told_option options.now) (map (λ n. n.now) names.now) }
{
    for option in options {
        if is_needed(option.kind) && !is_among(names, option.name) {
            return false;
        }
    }
    true
}
