// Refusals of the store, read from the start of some bytes and appended to others.
ghost use Rattle.std.specs.Prelude.{◌≡◌, ◌^◌, ◌++◌, ◌∷◌, ◌≤◌, OnOk};
ghost use Rattle.wire_fields.specs.Fields.{number64, both, row};
ghost use Rattle.wire_fields.specs.Gives.{Gives};
ghost use Rattle.wire_fields.specs.Parts.{counter, small, fixed, at_most};
ghost use Rattle.frame_wire.specs.declared.store_refusal.StoreRefusal.TheVariants as refusals;
ghost use Rattle.frame_wire.specs.StoreParts.{and_zero, no_numbers, two_numbers, clock, clock_moment, store_refusal};

use crate::store_refusal::StoreRefusal;
use lists_and_limits::OutOfMemory;
use schedule_text::Moment;
use wire_fields::{Fault, counter_at, fixed_at, put_tag, put_u64, small_at, u64_at};

// The boot that is drawn last.
const LAST_BOOT: u64 = 4_611_686_018_427_387_904;

const NANOS_PER_SECOND: u64 = 1_000_000_000;

// The last whole second of a moment.
const LAST_SECOND: u64 = 253_370_764_799;

// A number, and then 0.
fn number_at(rest: &mut &[u8]) -> Result<u64, Fault>
    ensures { Gives (λ n. ((n, tt), rest.new.now)) result ((and_zero number64).at rest.old.now) }
{
    let n = u64_at(rest)?;
    fixed_at(rest, 0)?;
    Ok(n)
}

// A greatest boot, and then 0.
fn greatest_at(rest: &mut &[u8]) -> Result<u64, Fault>
    ensures { Gives (λ n. ((n, tt), rest.new.now)) result ((and_zero counter).at rest.old.now) }
{
    let n = counter_at(rest)?;
    fixed_at(rest, 0)?;
    Ok(n)
}

// A count, and then 0.
fn count_at(rest: &mut &[u8]) -> Result<u32, Fault>
    ensures { Gives (λ n. ((n, tt), rest.new.now)) result ((and_zero small).at rest.old.now) }
{
    let n = small_at(rest)?;
    fixed_at(rest, 0)?;
    Ok(n)
}

// Two zeros.
fn zeros_at(rest: &mut &[u8]) -> Result<(), Fault>
    ensures { Gives (λ u. ((tt, tt), rest.new.now)) result (no_numbers.at rest.old.now) }
{
    fixed_at(rest, 0)?;
    fixed_at(rest, 0)
}

// A number of at most this.
fn at_most_at(rest: &mut &[u8], most: u64) -> Result<u64, Fault>
    ensures { Gives (λ n. (n, rest.new.now)) result ((at_most most number64).at rest.old.now) }
{
    let left = rest.len();
    let n = u64_at(rest)?;
    if n > most {
        return Err(Fault::Field { left });
    }
    Ok(n)
}

// A moment: whole seconds since 1970, and the nanoseconds behind them.
#[tactic(auto, unfolding(crate::specs::StoreParts::clock))]
fn clock_at(rest: &mut &[u8]) -> Result<Moment, Fault>
    ensures { Gives (λ x. (x, rest.new.now)) result (clock.at rest.old.now) }
{
    let seconds = at_most_at(rest, LAST_SECOND)?;
    let nanos = at_most_at(rest, NANOS_PER_SECOND - 1)?;
    Ok(clock_moment(seconds, nanos))
}

// The moment of whole seconds and the nanoseconds behind them.
fn clock_moment(seconds: u64, nanos: u64) -> Moment
    requires seconds { seconds ≤ 253370764799 }
    requires nanos { nanos ≤ 999999999 }
    ensures { result ≡ clock_moment (seconds, nanos) }
{
    match Moment::from_nanos(seconds as u128 * 1_000_000_000 + nanos as u128) {
        Some(moment) => moment,
        None => unreachable!(),
    }
}

fn spent_at(rest: &mut &[u8]) -> Result<StoreRefusal, Fault>
    ensures { Gives (λ x. (x, rest.new.now)) result (row (both (fixed (2 ^ 62)) (fixed 0)) (λ u. refusals.Spent) rest.old.now) }
{
    fixed_at(rest, LAST_BOOT)?;
    fixed_at(rest, 0)?;
    Ok(StoreRefusal::Spent)
}

fn key_too_long_at(rest: &mut &[u8]) -> Result<StoreRefusal, Fault>
    ensures { Gives (λ x. (x, rest.new.now)) result (row two_numbers (λ p. refusals.KeyTooLong p.0 p.1) rest.old.now) }
{
    let op = u64_at(rest)?;
    let n = u64_at(rest)?;
    Ok(StoreRefusal::KeyTooLong { op, n })
}

fn value_too_long_at(rest: &mut &[u8]) -> Result<StoreRefusal, Fault>
    ensures { Gives (λ x. (x, rest.new.now)) result (row two_numbers (λ p. refusals.ValueTooLong p.0 p.1) rest.old.now) }
{
    let op = u64_at(rest)?;
    let n = u64_at(rest)?;
    Ok(StoreRefusal::ValueTooLong { op, n })
}

#[tactic(auto, unfolding(crate::specs::StoreParts::store_refusal))]
pub(crate) fn store_refusal_at(rest: &mut &[u8]) -> Result<StoreRefusal, Fault>
    ensures { Gives (λ x. (x, rest.new.now)) result (store_refusal.at rest.old.now) }
{
    let [code, others @ ..] = *rest else {
        return Err(Fault::Field { left: 0 });
    };
    let left = rest.len();
    *rest = others;
    match *code {
        1 => Ok(StoreRefusal::OtherBoot {
            greatest: greatest_at(rest)?,
        }),
        2 => Ok(StoreRefusal::OldSeq {
            floor: number_at(rest)?,
        }),
        3 => Ok(StoreRefusal::NodesFull {
            nodes: count_at(rest)?,
        }),
        4 => spent_at(rest),
        5 => Ok(StoreRefusal::TooManyOps {
            n: number_at(rest)?,
        }),
        6 => key_too_long_at(rest),
        7 => value_too_long_at(rest),
        8 => Ok(StoreRefusal::OtherMoment {
            next: clock_at(rest)?,
        }),
        9 => Ok(StoreRefusal::Full {
            len: number_at(rest)?,
        }),
        10 => {
            zeros_at(rest)?;
            Ok(StoreRefusal::DiskFault)
        }
        11 => {
            zeros_at(rest)?;
            Ok(StoreRefusal::Reopen)
        }
        12 => {
            zeros_at(rest)?;
            Ok(StoreRefusal::OutOfMemory)
        }
        13 => Ok(StoreRefusal::CommandTooLong {
            n: number_at(rest)?,
        }),
        14 => Ok(StoreRefusal::StaleEpoch {
            seen: number_at(rest)?,
        }),
        15 => Ok(StoreRefusal::ReservedKey {
            op: number_at(rest)?,
        }),
        16 => {
            zeros_at(rest)?;
            Ok(StoreRefusal::Unfenced)
        }
        _ => Err(Fault::Field { left }),
    }
}

// Writes a code and two numbers.
fn put_numbers(out: &mut Vec<u8>, code: u8, first: u64, second: u64) -> Result<(), OutOfMemory>
    ensures { OnOk result (out.new.items ≡ out.old.items ++ code ∷ (number64.spell first ++ number64.spell second)) }
{
    put_tag(out, code)?;
    put_u64(out, first)?;
    put_u64(out, second)
}

#[tactic(auto, unfolding(crate::specs::StoreParts::store_refusal, crate::specs::StoreParts::clock, wire_fields::specs::Parts::counter, wire_fields::specs::Parts::small))]
pub(crate) fn put_store_refusal(out: &mut Vec<u8>, one: &StoreRefusal) -> Result<(), OutOfMemory>
    ensures { OnOk result (out.new.items ≡ out.old.items ++ store_refusal.spell one.now) }
{
    match one {
        StoreRefusal::OtherBoot { greatest } => put_numbers(out, 1, *greatest, 0),
        StoreRefusal::OldSeq { floor } => put_numbers(out, 2, *floor, 0),
        StoreRefusal::NodesFull { nodes } => put_numbers(out, 3, *nodes as u64, 0),
        StoreRefusal::Spent => put_numbers(out, 4, LAST_BOOT, 0),
        StoreRefusal::TooManyOps { n } => put_numbers(out, 5, *n, 0),
        StoreRefusal::KeyTooLong { op, n } => put_numbers(out, 6, *op, *n),
        StoreRefusal::ValueTooLong { op, n } => put_numbers(out, 7, *op, *n),
        StoreRefusal::OtherMoment { next } => put_other_moment(out, *next),
        StoreRefusal::Full { len } => put_numbers(out, 9, *len, 0),
        StoreRefusal::DiskFault => put_numbers(out, 10, 0, 0),
        StoreRefusal::Reopen => put_numbers(out, 11, 0, 0),
        StoreRefusal::OutOfMemory => put_numbers(out, 12, 0, 0),
        StoreRefusal::CommandTooLong { n } => put_numbers(out, 13, *n, 0),
        StoreRefusal::StaleEpoch { seen } => put_numbers(out, 14, *seen, 0),
        StoreRefusal::ReservedKey { op } => put_numbers(out, 15, *op, 0),
        StoreRefusal::Unfenced => put_numbers(out, 16, 0, 0),
    }
}

#[tactic(auto, unfolding(crate::specs::StoreParts::clock))]
fn put_other_moment(out: &mut Vec<u8>, next: Moment) -> Result<(), OutOfMemory>
    ensures { OnOk result (out.new.items ≡ out.old.items ++ 8 ∷ clock.spell next) }
{
    let nanos = next.nanos();
    let seconds = (nanos / 1_000_000_000) as u64;
    let behind = (nanos % 1_000_000_000) as u64;
    put_numbers(out, 8, seconds, behind)
}
