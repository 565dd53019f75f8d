// Which answers fit a command.
ghost use Rattle.std.specs.Prelude.{◌≡◌};
ghost use Rattle.frame_wire.specs.Store.{own_answer, may_miss, is_reading_of, is_reading_of_tx};

use crate::store_answer::StoreAnswer;
use crate::store_command::StoreCommand;
use crate::store_commands::command_kind;
use crate::store_kind::{AnswerKind, CommandKind};

// The answer that a command asks for.
fn own_answer(kind: CommandKind) -> AnswerKind
    ensures { result ≡ own_answer kind }
{
    match kind {
        CommandKind::Boot => AnswerKind::Booted,
        CommandKind::Tx => AnswerKind::Done,
        CommandKind::Get => AnswerKind::Value,
        CommandKind::PutReminder => AnswerKind::Done,
        CommandKind::GetReminder => AnswerKind::ReminderIs,
        CommandKind::DeleteReminder => AnswerKind::Done,
        CommandKind::Due => AnswerKind::DueList,
        CommandKind::Fired => AnswerKind::NextIs,
    }
}

// Whether there may be nothing to answer a command with.
fn may_miss(kind: CommandKind) -> bool
    ensures { result ≡ may_miss kind }
{
    match kind {
        CommandKind::Boot => false,
        CommandKind::Tx => false,
        CommandKind::Get => true,
        CommandKind::PutReminder => false,
        CommandKind::GetReminder => true,
        CommandKind::DeleteReminder => false,
        CommandKind::Due => false,
        CommandKind::Fired => true,
    }
}

/// Whether an answer has a reading to the one who sent this command: Booted to Boot; Done to Tx, PutReminder and
/// DeleteReminder; Value or NotThere to Get; ReminderIs or NotThere to GetReminder; DueList to Due; NextIs or NotThere
/// to Fired, where NotThere is a refusal; Refused to any. An answer with none is a fault of the store.
pub fn is_reading_of(command: &StoreCommand, answer: &StoreAnswer) -> bool
    ensures { result ≡ is_reading_of command.now answer.now }
{
    let kind = command_kind(command);
    let asked = own_answer(kind).byte();
    match answer {
        StoreAnswer::Booted { .. } => AnswerKind::Booted.byte() == asked,
        StoreAnswer::Done { .. } => AnswerKind::Done.byte() == asked,
        StoreAnswer::Value { .. } => AnswerKind::Value.byte() == asked,
        StoreAnswer::NotThere => may_miss(kind),
        StoreAnswer::ReminderIs { .. } => AnswerKind::ReminderIs.byte() == asked,
        StoreAnswer::DueList { .. } => AnswerKind::DueList.byte() == asked,
        StoreAnswer::NextIs { .. } => AnswerKind::NextIs.byte() == asked,
        StoreAnswer::Refused { .. } => true,
    }
}

/// Whether an answer has a reading to the one who sent a transaction, with an epoch or without one: Done or Refused.
pub fn is_reading_of_tx(answer: &StoreAnswer) -> bool
    ensures { result ≡ is_reading_of_tx answer.now }
{
    matches!(
        answer,
        StoreAnswer::Done { .. } | StoreAnswer::Refused { .. }
    )
}
