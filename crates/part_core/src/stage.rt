// Which stage a part is in.
ghost use Rattle.std.specs.Prelude.{◌≡◌};
ghost use Rattle.part_model.specs.Part.{is_locked, is_updated, is_stopped};

use part_model::Stage;

/// Whether it is Locked.
pub(crate) fn is_locked(stage: &Stage) -> bool
    ensures { result ≡ is_locked stage.now }
{
    match stage {
        Stage::Locked => true,
        _ => false,
    }
}

/// Whether it is Updated.
pub(crate) fn is_updated(stage: &Stage) -> bool
    ensures { result ≡ is_updated stage.now }
{
    match stage {
        Stage::Updated => true,
        _ => false,
    }
}

/// Whether it is Stopped.
pub(crate) fn is_stopped(stage: &Stage) -> bool
    ensures { result ≡ is_stopped stage.now }
{
    match stage {
        Stage::Stopped => true,
        _ => false,
    }
}
