// Counts and flags of a tick.
ghost use Rattle.std.specs.Prelude.{◌≡◌, ◌||◌};
ghost use Rattle.clock_turns.specs.Ends.{one_more, more_if};

// One more, up to the greatest number.
fn one_more(n: u32) -> u32
    ensures { result ≡ one_more n }
{
    if n < 4_294_967_295 { n + 1 } else { n }
}

/// The count of calls, after one that may have begun.
pub(crate) fn more_if(begun: bool, n: u32) -> u32
    ensures { result ≡ more_if begun n }
{
    if begun { one_more(n) } else { n }
}

/// Whether one of the two is.
pub(crate) fn either(a: bool, b: bool) -> bool
    ensures { result ≡ (a || b) }
{
    a || b
}
