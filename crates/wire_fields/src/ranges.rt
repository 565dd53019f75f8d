// Numbers in ranges, read from the start of some bytes and appended to others.
ghost use Rattle.std.specs.Prelude.{◌≡◌, ◌++◌, OnOk};
ghost use Rattle.wire_fields.specs.Gives.{Gives};
ghost use Rattle.wire_fields.specs.Parts.{counter, boot, fixed, small, flag};

use crate::fault::Fault;
use crate::numbers::{put_byte, put_u64, u64_at};
use actor_names::MOST_BOOT;
use lists_and_limits::OutOfMemory;

/// Reads a version, or a greatest boot: at most 2^62.
#[tactic(auto, unfolding(crate::specs::Parts::counter))]
pub fn counter_at(rest: &mut &[u8]) -> Result<u64, Fault>
    ensures { Gives (λ x. (x, rest.new.now)) result (counter.at rest.old.now) }
{
    let left = rest.len();
    let n = u64_at(rest)?;
    if n > MOST_BOOT {
        return Err(Fault::Field { left });
    }
    Ok(n)
}

/// Reads a boot: from 1 to 2^62.
#[tactic(auto, unfolding(crate::specs::Parts::boot))]
pub fn boot_at(rest: &mut &[u8]) -> Result<u64, Fault>
    ensures { Gives (λ x. (x, rest.new.now)) result (boot.at rest.old.now) }
{
    let left = rest.len();
    let n = u64_at(rest)?;
    if n == 0 || n > MOST_BOOT {
        return Err(Fault::Field { left });
    }
    Ok(n)
}

/// Reads this number and no other.
pub fn fixed_at(rest: &mut &[u8], n: u64) -> Result<(), Fault>
    ensures { Gives (λ x. (x, rest.new.now)) result ((fixed n).at rest.old.now) }
{
    let left = rest.len();
    if u64_at(rest)? != n {
        return Err(Fault::Field { left });
    }
    Ok(())
}

/// Reads a number of 8 bytes that fits 4.
#[tactic(auto, unfolding(crate::specs::Parts::small))]
pub fn small_at(rest: &mut &[u8]) -> Result<u32, Fault>
    ensures { Gives (λ x. (x, rest.new.now)) result (small.at rest.old.now) }
{
    let left = rest.len();
    let n = u64_at(rest)?;
    if n > u32::MAX as u64 {
        return Err(Fault::Field { left });
    }
    Ok(n as u32)
}

/// Reads whether something is so: a byte of 0 or 1.
#[tactic(auto, unfolding(crate::specs::Parts::flag))]
pub fn flag_at(rest: &mut &[u8]) -> Result<bool, Fault>
    ensures { Gives (λ x. (x, rest.new.now)) result (flag.at rest.old.now) }
{
    let (flag, others) = match *rest {
        [0, others @ ..] => (false, others),
        [1, others @ ..] => (true, others),
        _ => return Err(Fault::Field { left: rest.len() }),
    };
    *rest = others;
    Ok(flag)
}

/// Appends a version or a greatest boot.
#[tactic(auto, unfolding(crate::specs::Parts::counter))]
pub fn put_counter(out: &mut Vec<u8>, n: u64) -> Result<(), OutOfMemory>
    ensures { OnOk result (out.new.items ≡ out.old.items ++ counter.spell n) }
{
    put_u64(out, n)
}

/// Appends a boot.
#[tactic(auto, unfolding(crate::specs::Parts::boot))]
pub fn put_boot(out: &mut Vec<u8>, n: u64) -> Result<(), OutOfMemory>
    ensures { OnOk result (out.new.items ≡ out.old.items ++ boot.spell n) }
{
    put_u64(out, n)
}

/// Appends a number of 8 bytes that fits 4.
#[tactic(auto, unfolding(crate::specs::Parts::small))]
pub fn put_small(out: &mut Vec<u8>, n: u32) -> Result<(), OutOfMemory>
    ensures { OnOk result (out.new.items ≡ out.old.items ++ small.spell n) }
{
    put_u64(out, n as u64)
}

/// Appends whether something is so.
#[tactic(auto, unfolding(crate::specs::Parts::flag, crate::specs::Fields::byte))]
pub fn put_flag(out: &mut Vec<u8>, so: bool) -> Result<(), OutOfMemory>
    ensures { OnOk result (out.new.items ≡ out.old.items ++ flag.spell so) }
{
    if so {
        put_byte(out, 1)
    } else {
        put_byte(out, 0)
    }
}
