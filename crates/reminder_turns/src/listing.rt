// What the store's answers come to.
ghost use Rattle.std.specs.Prelude.{◌≡◌};
ghost use Rattle.reminder_turns.specs.Outcomes.{store_end, told_end, reported_end, page_of, last_key};

use crate::ends::TickEnd;
use crate::outcomes::undrawn_end;
use crate::results::Reported;
use crate::standing::or_end;
use exchanges::StoreEnd;
use frame_wire::{DueEntries, DueEntry, StoreAnswer, StoreRefusal};
use reminder_rows::DueKey;

// The end of the call that an exchange without an answer brings.
fn store_end(end: StoreEnd) -> TickEnd
    ensures { result ≡ store_end end }
{
    match end {
        StoreEnd::Fault => TickEnd::StoreFault,
        StoreEnd::Unreadable => TickEnd::StoreReply,
        StoreEnd::OutOfMemory => TickEnd::OutOfMemory,
    }
}

// What the answer to a Fired ends: nothing if the reminder goes on, is gone, or was registered anew.
fn told_end(got: Result<StoreAnswer, StoreEnd>) -> Option<TickEnd>
    ensures { result ≡ told_end got }
{
    match got {
        Ok(StoreAnswer::NextIs { .. }) => None,
        Ok(StoreAnswer::NotThere) => None,
        Ok(
            StoreAnswer::Refused {
                refusal: StoreRefusal::OtherMoment { .. },
            },
        ) => None,
        Ok(answer) => Some(TickEnd::StoreRefused { answer }),
        Err(end) => Some(store_end(end)),
    }
}

/// What ends after a report, if its turn has ended `early`.
pub(crate) fn reported_end(early: Option<TickEnd>, reported: Reported) -> Option<TickEnd>
    ensures { result ≡ reported_end early reported }
{
    match reported {
        Reported::Told { got } => or_end(early, told_end(got)),
        Reported::Undrawn { said } => Some(undrawn_end(&said)),
    }
}

/// The reminders that a page lists, or what ends if it lists none.
pub(crate) fn page_of(got: Result<StoreAnswer, StoreEnd>) -> Result<DueEntries, TickEnd>
    ensures { result ≡ page_of got }
{
    match got {
        Ok(StoreAnswer::DueList { entries }) => Ok(entries),
        Ok(answer) => Err(TickEnd::StoreRefused { answer }),
        Err(end) => Err(store_end(end)),
    }
}

/// The place of the last entry. It takes no memory.
pub(crate) fn last_key(entries: DueEntries) -> Option<DueKey>
    ensures { result ≡ last_key entries }
{
    let mut entries = entries.into_vec();
    match entries.pop() {
        None => None,
        Some(last) => {
            let DueEntry { key, .. } = last;
            Some(key)
        }
    }
}
