// Looking up the settings of a type.
ghost use Rattle.std.specs.Prelude.{◌≡◌, ◌≤◌, unwrap_or};
ghost use Rattle.std.specs.Option.{option_copied};
ghost use Rattle.turn_core.specs.Cell.{greatest_depth};
ghost use Rattle.part_model.specs.Settings.{default_settings, settings_of, AreShallow};

use actor_names::ActorType;
use part_model::TypeSettings;

/// The settings of a type, if it is listed.
pub(crate) fn find_settings<'a>(
    kinds: &'a [TypeSettings],
    kind: &ActorType,
) -> Option<&'a TypeSettings>
    ensures { unwrap_or (option_copied result) (default_settings kind.now) ≡ settings_of kinds.now kind.now }
{
    let mut found = None;
    for settings in kinds {
        if settings.kind == *kind {
            found = Some(settings);
        }
    }
    found
}

/// The depth of a type.
pub(crate) fn depth_of(kinds: &[TypeSettings], kind: &ActorType) -> u32
    requires { AreShallow kinds.now }
    ensures depth { result ≡ (settings_of kinds.now kind.now).depth }
    ensures shallow { result ≤ greatest_depth }
{
    match find_settings(kinds, kind) {
        None => 0,
        Some(settings) => settings.depth,
    }
}

/// The drain time of a type, in milliseconds.
pub(crate) fn drain_of(kinds: &[TypeSettings], kind: &ActorType) -> u64
    ensures { result ≡ (settings_of kinds.now kind.now).drain_ms }
{
    match find_settings(kinds, kind) {
        None => 60000,
        Some(settings) => settings.drain_ms,
    }
}

/// The idle time of a type, in milliseconds.
pub(crate) fn idle_of(kinds: &[TypeSettings], kind: &ActorType) -> u64
    ensures { result ≡ (settings_of kinds.now kind.now).idle_ms }
{
    match find_settings(kinds, kind) {
        None => 3600000,
        Some(settings) => settings.idle_ms,
    }
}
