// What calls make of a disk.
ghost use Rattle.standby_core.specs.Laws.{AttachCopies, SyncKeeps, ReadsAsReplica, PiecesAreOne};

/// A disk to which the calls of an attach were made reads as the one whose bytes they are, and all of it is on the disk.
/// A disk to which calls were made reads as the replica after them, and behind a sync a crash leaves nothing else. The
/// pieces of a write make the same of a disk as the write.
pub fn attach_law()
    ensures copies { AttachCopies }
    ensures keeps { SyncKeeps }
    ensures reads { ReadsAsReplica }
    ensures pieces { PiecesAreOne }
{}
