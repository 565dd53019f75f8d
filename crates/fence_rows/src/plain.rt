// Commands without an epoch.
ghost use Rattle.std.specs.Prelude.{◌≡◌};
ghost use Rattle.fence_rows.specs.Fences.{plain_answer};

use crate::epoch::is_epoch_key;
use crate::event::FencedAnswer;
use frame_wire::{StoreAnswer, StoreCommand};

/// What a command without an epoch is answered in place of the store; `None` if it is the store's.
pub(crate) fn plain_answer(command: &StoreCommand) -> Option<FencedAnswer>
    ensures { result ≡ plain_answer command.now }
{
    match command {
        StoreCommand::Tx { .. } => Some(FencedAnswer::Unfenced),
        StoreCommand::Get { key, .. } => {
            if is_epoch_key(key) {
                Some(FencedAnswer::Answer {
                    answer: StoreAnswer::NotThere,
                })
            } else {
                None
            }
        }
        StoreCommand::Boot { .. }
        | StoreCommand::PutReminder { .. }
        | StoreCommand::GetReminder { .. }
        | StoreCommand::DeleteReminder { .. }
        | StoreCommand::Due { .. }
        | StoreCommand::Fired { .. } => None,
    }
}
