// What the definitions of payloads mean.
ghost use Rattle.placement_payloads.specs.Laws.{ReadsPayload, ReadsOldForm, SpellsPayload, FitsAgain, SpellsOne, BeginsEntries};

/// A payload that is spelled is read again, and so is one of the old form; only spellings are read, and what is read may
/// be written. No two lists of entries have one spelling. A spelling is its start and its entries, one after another.
pub fn payload_law()
    ensures reads { ReadsPayload }
    ensures reads_old_form { ReadsOldForm }
    ensures spells { SpellsPayload }
    ensures fits { FitsAgain }
    ensures spells_one { SpellsOne }
    ensures begins { BeginsEntries }
{}
