// The forms that the values of a configuration have, apart from lists.
ghost use Rattle.std.specs.Prelude.{◌≡◌, ◌≤◌, IfSome, IfOk};
ghost use Rattle.json_text.specs.Values.{truth_in, member_at};
ghost use Rattle.schedule_text.specs.GoDurations.{go_nanos};
ghost use Rattle.app_texts.specs.Keys.{key_name};
ghost use Rattle.app_texts.specs.Forms.{cut_down, milliseconds_in, depth_in, key_reading, depth_within, reentrancy_reading, drain_of, treatment_reading};
ghost use Rattle.app_texts.specs.declared.config_key.ConfigKey.TheVariants.{Reentrancy};

use crate::config_key::ConfigKey;
use crate::treatment::Treatment;
use json_text::JsonRef;
use schedule_text::go_nanos;

// The milliseconds of a duration, cut down; `None` if the text is none.
fn cut_down(text: &str) -> Option<u64>
    ensures { result ≡ cut_down (go_nanos text.now) }
{
    match go_nanos(text.as_bytes()) {
        Ok(nanos) => Some(nanos / 1_000_000),
        Err(_) => None,
    }
}

fn milliseconds_in(value: &JsonRef<'_>) -> Option<u64>
    ensures { result ≡ milliseconds_in value.now }
{
    match value.as_str() {
        None => None,
        Some(text) => cut_down(text),
    }
}

fn depth_in(value: &JsonRef<'_>) -> Option<u32>
    ensures depth { result ≡ depth_in value.now }
    ensures shallow { IfSome result (λ n. n ≤ 1024) }
{
    match value.as_u64() {
        None => None,
        Some(number) => {
            if 1 <= number && number <= 1024 {
                Some(number as u32)
            } else {
                None
            }
        }
    }
}

fn read_truth(value: &JsonRef<'_>, key: ConfigKey, default: bool) -> Result<bool, ConfigKey>
    ensures { result ≡ key_reading key default truth_in value.now }
{
    match value.member(key.name()) {
        None => Ok(default),
        Some(found) => match found.as_bool() {
            None => Err(key),
            Some(truth) => Ok(truth),
        },
    }
}

fn read_milliseconds(value: &JsonRef<'_>, key: ConfigKey, default: u64) -> Result<u64, ConfigKey>
    ensures { result ≡ key_reading key default milliseconds_in value.now }
{
    match value.member(key.name()) {
        None => Ok(default),
        Some(found) => match milliseconds_in(&found) {
            None => Err(key),
            Some(milliseconds) => Ok(milliseconds),
        },
    }
}

fn read_depth(value: &JsonRef<'_>, key: ConfigKey, default: u32) -> Result<u32, ConfigKey>
    requires { default ≤ 1024 }
    ensures depth { result ≡ key_reading key default depth_in value.now }
    ensures shallow { IfOk result (λ n. n ≤ 1024) }
{
    match value.member(key.name()) {
        None => Ok(default),
        Some(found) => match depth_in(&found) {
            None => Err(key),
            Some(depth) => Ok(depth),
        },
    }
}

// The depth that the value under `reentrancy` gives.
fn depth_within(value: &JsonRef<'_>) -> Result<u32, ConfigKey>
    ensures depth { result ≡ depth_within value.now }
    ensures shallow { IfOk result (λ n. n ≤ 1024) }
{
    if !value.is_object() {
        return Err(ConfigKey::Reentrancy);
    }
    let enabled = read_truth(value, ConfigKey::Enabled, false)?;
    let depth = read_depth(value, ConfigKey::MaxStackDepth, 32)?;
    Ok(if enabled { depth } else { 0 })
}

fn read_reentrancy(value: &JsonRef<'_>) -> Result<u32, ConfigKey>
    ensures depth { result ≡ reentrancy_reading (member_at (key_name Reentrancy) value.now) }
    ensures shallow { IfOk result (λ n. n ≤ 1024) }
{
    match value.member(ConfigKey::Reentrancy.name()) {
        None => Ok(0),
        Some(found) => depth_within(&found),
    }
}

// A drain time; 0 if turns aren't drained.
fn drain_of(drains: bool, milliseconds: u64) -> u64
    ensures { result ≡ drain_of drains milliseconds }
{
    if drains { milliseconds } else { 0 }
}

// How the settings in an object say that actors are treated.
#[tactic(auto, unfolding(crate::specs::Forms::treatment_reading))]
pub(crate) fn read_treatment(value: &JsonRef<'_>) -> Result<Treatment, ConfigKey>
    ensures treatment { result ≡ treatment_reading value.now }
    ensures shallow { IfOk result (λ t. t.depth ≤ 1024) }
{
    let idle_ms = read_milliseconds(value, ConfigKey::ActorIdleTimeout, 3_600_000)?;
    let drain = read_milliseconds(value, ConfigKey::DrainOngoingCallTimeout, 60_000)?;
    let drains = read_truth(value, ConfigKey::DrainRebalancedActors, true)?;
    let depth = read_reentrancy(value)?;
    Ok(Treatment {
        idle_ms,
        drain_ms: drain_of(drains, drain),
        depth,
    })
}
