// What holds over whole histories of a fenced store that is given lists. The function that states it does nothing.
ghost use Rattle.fence_rows.specs.Groups.{FlattensGroups, GroupEpochNeverFalls, AheadKeepsEpoch, PartKeepsEpoch};

use crate::law::fence_law;

/// Over every legal history of lists of commands and compactions with their answers: the answers, and what the store
/// contains, are those of the commands one after the other, so that every law over single events holds of them. Left out
/// are only commands that were answered that the disk failed. A crash at any moment leaves a batch as a whole or not at
/// all, and everything that was acknowledged. The epoch of an actor never falls, nor does a crash lower it.
pub fn group_law()
    ensures flattens { FlattensGroups }
    ensures never_falls { GroupEpochNeverFalls }
    ensures ahead { AheadKeepsEpoch }
    ensures part { PartKeepsEpoch }
{
    fence_law();
}
