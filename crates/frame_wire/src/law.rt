// What the definitions of frames and streams mean.
ghost use Rattle.frame_wire.specs.Laws.{ReadsSpelling, NoPrefix, OneReading, JoinsPieces, ReadsCommand, SpellsCommand, ReadsAsTransaction};

/// A frame that is spelled is read again, whatever follows it, and no spelling is the beginning of another. A stream
/// gives its frames, its rest and its fault in only one way, and the same in two pieces as in one.
pub fn frame_law()
    ensures reads { ReadsSpelling }
    ensures no_prefix { NoPrefix }
    ensures one_reading { OneReading }
    ensures pieces { JoinsPieces }
{}

/// A command that is spelled is read again, and only spellings are read. An answer to a transaction with an epoch has the
/// readings of one to the same transaction without it.
pub fn command_law()
    ensures reads { ReadsCommand }
    ensures spells { SpellsCommand }
    ensures transaction { ReadsAsTransaction }
{}
