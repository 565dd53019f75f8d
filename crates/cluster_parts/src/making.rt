// The parts of a new member.
ghost use Rattle.std.specs.Prelude.{◌≡◌, ◌≤◌, IfOk, unwrap_or};
ghost use Rattle.std.specs.Option.{option_copied};
ghost use Rattle.part_model.specs.Settings.{AreShallow};
ghost use Rattle.cluster_model.specs.World.{unnamed_settings, settings_in, settings_for, new_parts};
ghost use Rattle.cluster_parts.specs.Views.{states_of};

use actor_names::{ActorType, Member, OutOfMemory};
use part_core::Part;
use part_model::{PartSettings, TypeList, TypeSettings};
use std::alloc::Global;
use world_events::WorldSettings;

/// The settings of a type, if it is listed; of two entries for one type the last counts.
fn find_settings<'a>(settings: &'a WorldSettings, kind: &ActorType) -> Option<&'a TypeSettings>
    ensures { unwrap_or (option_copied result) (unnamed_settings settings.now kind.now) ≡ settings_in settings.now kind.now }
{
    let mut found = None;
    let kinds = settings.kinds.as_slice();
    for entry in kinds {
        if entry.kind == *kind {
            found = Some(entry);
        }
    }
    found
}

/// The settings of a type of a boot line.
fn settings_in(
    alloc: Global,
    settings: &WorldSettings,
    kind: &ActorType,
) -> Result<TypeSettings, OutOfMemory>
    ensures { IfOk result (λ t. t ≡ settings_in settings.now kind.now) }
{
    match find_settings(settings, kind) {
        None => Ok(TypeSettings {
            kind: kind.copy(alloc)?,
            idle_ms: settings.idle_ms,
            drain_ms: settings.drain_ms,
            depth: 0,
        }),
        Some(found) => Ok(TypeSettings {
            kind: found.kind.copy(alloc)?,
            idle_ms: found.idle_ms,
            drain_ms: found.drain_ms,
            depth: found.depth,
        }),
    }
}

/// The settings of the types of a boot line.
fn settings_for(
    alloc: Global,
    settings: &WorldSettings,
    kinds: &[ActorType],
) -> Result<TypeList, OutOfMemory>
    ensures { IfOk result (λ list. list ≡ settings_for settings.now kinds.now) }
{
    let mut list = Vec::new(alloc);
    for kind in kinds {
        list.push(settings_in(alloc, settings, kind)?)?;
    }
    Ok(TypeList::from_vec(list))
}

/// The `count` parts of a new member, numbered from 0.
pub(crate) fn make_parts(
    alloc: Global,
    member: Member,
    settings: &WorldSettings,
    kinds: &[ActorType],
    count: u8,
) -> Result<Vec<Part>, OutOfMemory>
    requires { AreShallow settings.now.kinds }
    ensures { IfOk result (λ parts. states_of parts.items ≡ new_parts member (settings_for settings.now kinds.now) 0 count) }
{
    let mut parts = Vec::new(alloc);
    for i in 0..count {
        let list = settings_for(alloc, settings, kinds)?;
        parts.push(Part::new(
            alloc,
            PartSettings {
                member,
                part: i,
                kinds: list,
            },
        )?)?;
    }
    Ok(parts)
}
