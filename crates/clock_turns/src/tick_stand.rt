// Where a tick stands.
ghost use Rattle.std.specs.Prelude.{◌≡◌};
ghost use Rattle.clock_turns.specs.Ticks.{after_timer};

use crate::ends::TickEnd;

/// Where a tick stands: it goes on at this book, or it is over.
#[derive(Drop)]
pub(crate) enum Stand {
    On { book: usize },
    Over { end: TickEnd },
}

/// Where the tick stands after a timer of this book.
pub(crate) fn after_timer(book: usize, end: Option<TickEnd>) -> Stand
    ensures { result ≡ after_timer book end }
{
    match end {
        None => Stand::On { book },
        Some(end) => Stand::Over { end },
    }
}
