// Where a call stands between two pages.
ghost use Rattle.std.specs.Prelude.{◌≡◌, None};
ghost use Rattle.reminder_turns.specs.Outcomes.{stand_after, tick_end, or_end};

use crate::ends::TickEnd;
use reminder_rows::DueKey;

/// Where a call stands: at the page behind this place, at its end, or it has been ended.
#[derive(Drop)]
pub enum Stand {
    /// The next page is the one behind this place; the first one, if there is none.
    On { place: Option<DueKey> },
    /// The last page was empty.
    Last,
    /// Something ended the call.
    Over { end: TickEnd },
}

/// Where the call stands after a page whose last entry has this place.
pub(crate) fn stand_after(place: Option<DueKey>, end: Option<TickEnd>) -> Stand
    ensures { result ≡ stand_after place end }
{
    match end {
        Some(end) => Stand::Over { end },
        None => match place {
            Some(key) => Stand::On { place: Some(key) },
            None => Stand::Last,
        },
    }
}

/// How a call ends that nothing ended before the last page.
pub(crate) fn done_end(turns: u32, faulted: bool) -> TickEnd
    ensures { result ≡ tick_end turns faulted None }
{
    if faulted {
        TickEnd::AppFault
    } else {
        TickEnd::Done { turns }
    }
}

/// The first of two ends, if there is one.
pub(crate) fn or_end(end: Option<TickEnd>, other: Option<TickEnd>) -> Option<TickEnd>
    ensures { result ≡ or_end end other }
{
    match end {
        Some(end) => Some(end),
        None => other,
    }
}
