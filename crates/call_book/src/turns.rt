// Which of some rows has the earliest turn of those whose call is done.
ghost use Rattle.std.specs.Prelude.{◌≡◌};
ghost use Rattle.call_book.specs.Turns.{is_first, sooner, turn_in, done_row};

use crate::row::Row;

/// Whether there is a first turn, and it is not after the second one, if there is one.
pub(crate) fn is_first(a: &Option<u64>, b: &Option<u64>) -> bool
    ensures { result ≡ is_first a.now b.now }
{
    match (a, b) {
        (None, _) => false,
        (Some(_), None) => true,
        (Some(a), Some(b)) => *a <= *b,
    }
}

/// The earlier of two turns.
pub(crate) fn sooner(a: Option<u64>, b: Option<u64>) -> Option<u64>
    ensures { result ≡ sooner a b }
{
    if is_first(&a, &b) { a } else { b }
}

/// The turn of a row whose call is done.
pub(crate) fn done_turn(row: &Row) -> Option<u64>
    ensures { result ≡ turn_in (done_row row.now) }
{
    if row.entry.stage.is_done() {
        Some(row.turn)
    } else {
        None
    }
}

/// The earliest turn of a row and those behind it, whose earliest turn this is.
pub(crate) fn first_from(row: &Row, behind: Option<u64>) -> Option<u64>
    ensures { result ≡ sooner (turn_in (done_row row.now)) behind }
{
    sooner(done_turn(row), behind)
}
