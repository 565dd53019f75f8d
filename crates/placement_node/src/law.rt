// What holds of a node over lists of steps and restarts.
ghost use Rattle.placement_node.specs.Crashes.{CrashLeaves, OpensAtLeft, OpeningLeaves, RefusesLeft};
ghost use Rattle.placement_node.specs.Histories.{FollowsHistory};
ghost use Rattle.placement_node.specs.Runs.{OpensAtEnd, OpensLeft, StepsAtEnd, LeavesEnd, StandsAfter, TellsLast, VersionsRise, VersionsAbove};

use placement_core::replayed_law;

/// A node that is opened on the records of a run of steps and restarts goes on where the run ended. Whatever a crash
/// leaves at any moment of a step has the records of the run before it or with it; once the step was answered, those with
/// it; after a disk fault, those before the step that met it or with it. So a node that is opened on what a crash left
/// goes on where one of these runs ended, and is refused only by the disk, for want of memory, or if the record of its
/// restart has no room. Every version that a node told is the last one of its space, which never falls, and one that is
/// told after a restart is above all that were told before it: so no version is used twice. The steps of a legal history
/// of a node's gate are such a list of steps.
pub fn node_law()
    ensures opens { OpensAtEnd }
    ensures opens_left { OpensAtLeft }
    ensures refused { RefusesLeft }
    ensures opening { OpeningLeaves }
    ensures steps { StepsAtEnd }
    ensures leaves { LeavesEnd }
    ensures left { OpensLeft }
    ensures crash { CrashLeaves }
    ensures stands { StandsAfter }
    ensures history { FollowsHistory }
    ensures told { TellsLast }
    ensures versions { VersionsRise }
    ensures above { VersionsAbove }
{
    replayed_law();
}
