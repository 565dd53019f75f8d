// What the definitions of payloads mean. The function that states it does nothing.
ghost use Rattle.store_payloads.specs.Laws.{ReadsCommands, ReadsRows, ReadsSnapshot, SpellsToday, ReadsOldBoots, ReadsOldRows, KeepsFit, AnswersFit};

use frame_wire::command_law;

/// A payload that is spelled is read again. The rows of tables, in their order, are read back to these tables, and
/// aren't of the first form; the boot of a node with which an old file begins, or the row of one, is. A command that is
/// accepted leaves tables that can be written as rows, if they could before, and its answer can be written as a frame.
pub fn payload_law()
    ensures commands { ReadsCommands }
    ensures rows { ReadsRows }
    ensures snapshot { ReadsSnapshot }
    ensures today { SpellsToday }
    ensures old_boots { ReadsOldBoots }
    ensures old_rows { ReadsOldRows }
    ensures fits { KeepsFit }
    ensures answers { AnswersFit }
{
    command_law();
}
