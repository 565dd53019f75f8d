// The types that an application hosts, with their settings.
ghost use Rattle.std.specs.Prelude.{◌≡◌, ◌≤◌, [], IfOk};
ghost use Rattle.app_texts.specs.Config.{is_among, first_ones, treatment_or, settings_as, settings_by};
ghost use Rattle.part_model.specs.Settings.{AreShallow};

use crate::groups::Group;
use crate::treatment::Treatment;
use actor_names::ActorType;
use lists_and_limits::OutOfMemory;
use part_model::TypeSettings;
use std::alloc::Global;

fn is_among(types: &[ActorType], kind: &ActorType) -> bool
    ensures { result ≡ is_among types.now kind.now }
{
    types.contains(kind)
}

// The types, each once, in the order in which they come first.
pub(crate) fn first_ones(alloc: Global, types: &[ActorType]) -> Result<Vec<ActorType>, OutOfMemory>
    ensures { IfOk result (λ first. first.items ≡ first_ones [] types.now) }
{
    let mut first: Vec<ActorType> = Vec::new(alloc);
    for kind in types {
        if !is_among(first.as_slice(), kind) {
            first.push(kind.copy(alloc)?)?;
        }
    }
    Ok(first)
}

// How a type is treated: as the last group says that names it, or else as `outer` says.
fn treatment_of(outer: Treatment, groups: &[Group], kind: &ActorType) -> Treatment
    requires { outer.depth ≤ 1024 }
    ensures treatment { result ≡ treatment_or outer groups.now kind.now }
    ensures shallow { result.depth ≤ 1024 }
{
    let mut found = outer;
    for group in groups {
        if is_among(group.types(), kind) {
            found = group.treatment();
        }
    }
    found
}

fn settings_as(
    alloc: Global,
    treatment: Treatment,
    kind: &ActorType,
) -> Result<TypeSettings, OutOfMemory>
    ensures { IfOk result (λ s. s ≡ settings_as treatment kind.now) }
{
    Ok(TypeSettings {
        kind: kind.copy(alloc)?,
        idle_ms: treatment.idle_ms,
        drain_ms: treatment.drain_ms,
        depth: treatment.depth,
    })
}

// The settings of the types.
pub(crate) fn settings_by(
    alloc: Global,
    outer: Treatment,
    groups: &[Group],
    types: &[ActorType],
) -> Result<Vec<TypeSettings>, OutOfMemory>
    requires { outer.depth ≤ 1024 }
    ensures settings { IfOk result (λ list. list.items ≡ settings_by outer groups.now types.now) }
    ensures shallow { IfOk result (λ list. AreShallow list.items) }
{
    let mut list = Vec::new(alloc);
    for kind in types {
        let treatment = treatment_of(outer, groups, kind);
        list.push(settings_as(alloc, treatment, kind)?)?;
    }
    Ok(list)
}
