// The configuration of an application.
ghost use Rattle.std.specs.Prelude.{◌≡◌, ◌≤◌, [], length, IfOk};
ghost use Rattle.part_model.specs.Settings.{AreShallow};
ghost use Rattle.app_texts.specs.Answers.{Gives, GivesConfig};
ghost use Rattle.app_texts.specs.Config.{config_reading, groups_reading, first_ones, hosting, ConfigOf};

use crate::config_error::{ConfigError, KeyFault, config_error};
use crate::groups::{Group, read_entries, read_group};
use crate::hosting::{first_ones, settings_by};
use json_text::{Json, JsonError, JsonRef};
use part_model::TypeList;
use std::alloc::Global;

// The most types that an application may host.
const MOST_TYPES: usize = 32;

/// What an application says of the actors that it hosts.
#[derive(Drop)]
pub struct AppConfig {
    /// The types that it hosts, each once, in the order in which it names them, with their settings.
    pub kinds: TypeList,
}

// What stands outside of `entitiesConfig`, and the entries of it.
fn read_groups(alloc: Global, value: &JsonRef<'_>) -> Result<(Group, Vec<Group>), KeyFault>
    ensures { Gives (λ read. (read.0, read.1.items)) (groups_reading value.now) result }
{
    let outer = read_group(alloc, value)?;
    let groups = read_entries(alloc, value)?;
    Ok((outer, groups))
}

// The settings of the types that the application hosts.
fn host(alloc: Global, outer: &Group, groups: &[Group]) -> Result<AppConfig, ConfigError>
    ensures config { GivesConfig (hosting outer.now.treatment groups.now (first_ones [] outer.now.types)) result }
    ensures shallow { IfOk result (λ config. AreShallow config.kinds) }
{
    let Ok(types) = first_ones(alloc, outer.types()) else {
        return Err(ConfigError::OutOfMemory);
    };
    if types.len() > MOST_TYPES {
        return Err(ConfigError::TooManyTypes {
            n: types.len() as u64,
        });
    }
    match settings_by(alloc, outer.treatment(), groups, types.as_slice()) {
        Ok(list) => Ok(AppConfig {
            kinds: TypeList::from_vec(list),
        }),
        Err(_) => Err(ConfigError::OutOfMemory),
    }
}

#[tactic(auto, unfolding(crate::specs::Config::config_reading))]
fn config_in(alloc: Global, value: &JsonRef<'_>) -> Result<AppConfig, ConfigError>
    ensures config { GivesConfig (config_reading value.now) result }
    ensures shallow { IfOk result (λ config. AreShallow config.kinds) }
{
    if !value.is_object() {
        return Err(ConfigError::NotJson);
    }
    match read_groups(alloc, value) {
        Ok((outer, groups)) => host(alloc, &outer, groups.as_slice()),
        Err(fault) => Err(config_error(alloc, fault)),
    }
}

/// Reads the configuration that an application gives. Durations are cut down to milliseconds. A type that occurs
/// twice is hosted once, and of several entries of `entitiesConfig` the last that names a type counts; a type that is
/// named only there is not hosted. Keys without a meaning are passed over. The forms of all values are tested before
/// the number of types: those of `entities`, of the settings and of `entitiesConfig`, in the order of `ConfigKey`.
pub fn read_config(alloc: Global, body: &[u8]) -> Result<AppConfig, ConfigError>
    ensures config { ConfigOf body.now result }
    ensures shallow { IfOk result (λ config. AreShallow config.kinds) }
{
    match Json::read(alloc, body) {
        Ok(json) => config_in(alloc, &json.as_ref()),
        Err(JsonError::NotJson) => Err(ConfigError::NotJson),
        Err(JsonError::OutOfMemory) => Err(ConfigError::OutOfMemory),
    }
}
