// The keys of a configuration that have a meaning.
ghost use Rattle.std.specs.Prelude.{◌≡◌};
ghost use Rattle.app_texts.specs.Keys.{key_name};

// A key that has a meaning.
#[derive(Clone, Copy)]
pub(crate) enum ConfigKey {
    Entities,
    ActorIdleTimeout,
    DrainOngoingCallTimeout,
    DrainRebalancedActors,
    Reentrancy,
    Enabled,
    MaxStackDepth,
    EntitiesConfig,
}

impl ConfigKey {
    // The key as it stands in a configuration.
    pub(crate) fn name(self) -> &'static str
        ensures { result.now ≡ key_name self }
    {
        match self {
            ConfigKey::Entities => "entities",
            ConfigKey::ActorIdleTimeout => "actorIdleTimeout",
            ConfigKey::DrainOngoingCallTimeout => "drainOngoingCallTimeout",
            ConfigKey::DrainRebalancedActors => "drainRebalancedActors",
            ConfigKey::Reentrancy => "reentrancy",
            ConfigKey::Enabled => "enabled",
            ConfigKey::MaxStackDepth => "maxStackDepth",
            ConfigKey::EntitiesConfig => "entitiesConfig",
        }
    }
}
