// What holds of commands one after another. The function that states it does nothing.
ghost use Rattle.store_tables.specs.Runs.{FoldsAccepted, AcceptsOnce, RepeatsAnswer};

use stamp_lanes::lane_law;

/// Over every list of commands: they leave what those that are accepted leave; no stamp is accepted twice; and a repeat
/// of an accepted command is told its answer.
pub fn outcome_law()
    ensures folds { FoldsAccepted }
    ensures once { AcceptsOnce }
    ensures repeats { RepeatsAnswer }
{
    lane_law();
}
