// The rates of clocks: while one goes forward by x, the other goes forward by at least half of x.
ghost use Rattle.std.specs.Prelude.{◌≡◌, ◌<◌, ◌^◌, ◌↔◌, IsTrue, length};
ghost use Rattle.lease_core.specs.Lease.{RateBound, bad_rate, moment_bound, first_unrated};
ghost use Rattle.lease_core.specs.Book.{is_past, any_past};

use crate::book::MemberClock;

/// The bound of moments, in milliseconds: the year 9999.
const MOMENT_BOUND: u64 = 253_370_764_800_000;

/// Whether neither of two clocks' steps is less than half of the other.
fn keeps_rate(placement: u64, member: u64) -> bool
    ensures { IsTrue result ↔ RateBound placement member }
{
    placement - placement / 2 <= member && member - member / 2 <= placement
}

/// The first of the members' steps, counted from 0, that isn't within the rates.
fn first_unrated(placement: u64, steps: &[u64]) -> Option<u64>
    ensures { result ≡ first_unrated placement 0 steps.now }
{
    for (at, step) in steps.iter().enumerate() {
        if !keeps_rate(placement, *step) {
            return Some(at as u64);
        }
    }
    None
}

/// What is wrong with the steps of a pass for so many members: the lesser of the two numbers if there is another number
/// of steps, or the first step that isn't within the rates.
pub(crate) fn bad_rate(placement: u64, steps: &[u64], members: usize) -> Option<u64>
    ensures { result ≡ bad_rate placement steps.now members }
{
    if steps.len() != members {
        return Some(steps.len().min(members) as u64);
    }
    first_unrated(placement, steps)
}

/// Whether a clock would reach the bound of moments.
pub(crate) fn is_past(clock: u64, step: u64) -> bool
    ensures { result ≡ is_past clock step }
{
    clock.saturating_add(step) >= MOMENT_BOUND
}

/// Whether one of the members' clocks would.
pub(crate) fn any_past(members: &[MemberClock], steps: &[u64]) -> bool
    requires { length steps.now ≡ length members.now }
    ensures { result ≡ any_past steps.now members.now }
{
    for (at, step) in steps.iter().enumerate() {
        let member = &members[at];
        if is_past(member.clock, *step) {
            return true;
        }
    }
    false
}
