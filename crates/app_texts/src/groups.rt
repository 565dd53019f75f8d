// The lists of a configuration: types, and entries that name types with settings of their own.
ghost use Rattle.std.specs.Prelude.{◌≡◌, ◌≤◌};
ghost use Rattle.json_text.specs.Values.{is_object, member_at};
ghost use Rattle.app_texts.specs.declared.config_key.ConfigKey.TheVariants.{Entities, EntitiesConfig};
ghost use Rattle.app_texts.specs.Keys.{key_name};
ghost use Rattle.app_texts.specs.Answers.{Gives};
ghost use Rattle.app_texts.specs.Groups.{type_of, type_reading, list_reading, listed, group_reading, entry_reading, entries_reading};

use crate::config_error::KeyFault;
use crate::config_key::ConfigKey;
use crate::forms::read_treatment;
use crate::treatment::Treatment;
use actor_names::{ActorType, NameError, read_actor_type};
use json_text::JsonRef;
use std::alloc::Global;
use std::marker::Model;

// Types that are treated alike.
#[derive(Drop)]
pub(crate) struct Group {
    types: Vec<ActorType>,
    treatment: Treatment,
}

impl Model for Group {
    ghost use Rattle.std.specs.Prelude.{◌≤◌};
    ghost use Rattle.app_texts.specs.TypeGroups.{TypeGroup};

    ghost Value = { TypeGroup };

    ghost view = { λ g. record { types = g.types.items; treatment = g.treatment } };

    ghost invariant = { λ g. g.treatment.depth ≤ 1024 };
}

impl Group {
    // The types, in the order given.
    pub(crate) fn types(&self) -> &[ActorType]
        ensures { result.now ≡ self.now.types }
    {
        self.types.as_slice()
    }

    // How they are treated.
    pub(crate) fn treatment(&self) -> Treatment
        ensures treatment { result ≡ self.now.treatment }
        ensures shallow { result.depth ≤ 1024 }
    {
        self.treatment
    }
}

// Reads an actor type.
fn read_type(alloc: Global, text: &str) -> Result<ActorType, KeyFault>
    ensures { Gives (λ type. type) (type_of (Some text.now)) result }
{
    match read_actor_type(alloc, text.as_bytes()) {
        Ok(kind) => Ok(kind),
        Err(NameError::OutOfMemory) => Err(KeyFault::Memory),
        Err(_) => Err(KeyFault::Form(ConfigKey::Entities)),
    }
}

fn type_in(alloc: Global, value: &JsonRef<'_>) -> Result<ActorType, KeyFault>
    ensures { Gives (λ type. type) (type_reading value.now) result }
{
    match value.as_str() {
        None => Err(KeyFault::Form(ConfigKey::Entities)),
        Some(text) => read_type(alloc, text),
    }
}

// The types of an array.
fn types_within(alloc: Global, value: &JsonRef<'_>) -> Result<Vec<ActorType>, KeyFault>
    ensures { Gives (λ types. types.items) (list_reading Entities type_reading value.now) result }
{
    let Some(count) = value.item_count() else {
        return Err(KeyFault::Form(ConfigKey::Entities));
    };
    let mut types = Vec::new(alloc);
    for index in 0..count {
        let Some(item) = value.item(index) else {
            return Ok(types);
        };
        let kind = match type_in(alloc, &item) {
            Ok(kind) => kind,
            Err(fault) => return Err(fault),
        };
        if types.push(kind).is_err() {
            return Err(KeyFault::Memory);
        }
    }
    Ok(types)
}

fn read_types(alloc: Global, value: &JsonRef<'_>) -> Result<Vec<ActorType>, KeyFault>
    ensures { Gives (λ types. types.items) (listed Entities type_reading (member_at (key_name Entities) value.now)) result }
{
    match value.member(ConfigKey::Entities.name()) {
        None => Ok(Vec::new(alloc)),
        Some(found) => types_within(alloc, &found),
    }
}

// The types that an object lists, and the settings that it gives them.
#[tactic(auto, unfolding(crate::specs::Groups::group_reading))]
pub(crate) fn read_group(alloc: Global, value: &JsonRef<'_>) -> Result<Group, KeyFault>
    ensures { Gives (λ group. group) (group_reading value.now) result }
{
    let types = read_types(alloc, value)?;
    match read_treatment(value) {
        Ok(treatment) => Ok(Group { types, treatment }),
        Err(key) => Err(KeyFault::Form(key)),
    }
}

#[tactic(auto, unfolding(crate::specs::Groups::entry_reading))]
fn read_entry(alloc: Global, value: &JsonRef<'_>) -> Result<Group, KeyFault>
    ensures { Gives (λ group. group) (entry_reading value.now) result }
{
    if !value.is_object() {
        return Err(KeyFault::Form(ConfigKey::EntitiesConfig));
    }
    read_group(alloc, value)
}

// The entries of an array.
fn entries_within(alloc: Global, value: &JsonRef<'_>) -> Result<Vec<Group>, KeyFault>
    ensures { Gives (λ groups. groups.items) (list_reading EntitiesConfig entry_reading value.now) result }
{
    let Some(count) = value.item_count() else {
        return Err(KeyFault::Form(ConfigKey::EntitiesConfig));
    };
    let mut groups = Vec::new(alloc);
    for index in 0..count {
        let Some(item) = value.item(index) else {
            return Ok(groups);
        };
        let group = match read_entry(alloc, &item) {
            Ok(group) => group,
            Err(fault) => return Err(fault),
        };
        if groups.push(group).is_err() {
            return Err(KeyFault::Memory);
        }
    }
    Ok(groups)
}

// The entries under `entitiesConfig`.
#[tactic(auto, unfolding(crate::specs::Groups::entries_reading))]
pub(crate) fn read_entries(alloc: Global, value: &JsonRef<'_>) -> Result<Vec<Group>, KeyFault>
    ensures { Gives (λ groups. groups.items) (entries_reading value.now) result }
{
    match value.member(ConfigKey::EntitiesConfig.name()) {
        None => Ok(Vec::new(alloc)),
        Some(found) => entries_within(alloc, &found),
    }
}
