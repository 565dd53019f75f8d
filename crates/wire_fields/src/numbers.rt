// Numbers and sized bytes, read from the start of some bytes and appended to others.
ghost use Rattle.std.specs.Prelude.{◌≡◌, ◌++◌, ◌∷◌, [], OnOk};
ghost use Rattle.wire_fields.specs.Fields.{byte, number16, number32, number64, sized, bytes_of};
ghost use Rattle.wire_fields.specs.Gives.{Gives};

use crate::fault::Fault;
use lists_and_limits::OutOfMemory;

/// Reads a byte.
#[tactic(auto, unfolding(crate::specs::Fields::byte))]
pub fn byte_at(rest: &mut &[u8]) -> Result<u8, Fault>
    ensures { Gives (λ x. (x, rest.new.now)) result (byte.at rest.old.now) }
{
    match *rest {
        [] => Err(Fault::Field { left: 0 }),
        [first, others @ ..] => {
            *rest = others;
            Ok(*first)
        }
    }
}

/// Reads a number of two bytes.
#[tactic(auto, unfolding(crate::specs::Fields::number16))]
pub fn u16_at(rest: &mut &[u8]) -> Result<u16, Fault>
    ensures { Gives (λ x. (x, rest.new.now)) result (number16.at rest.old.now) }
{
    if rest.len() < 2 {
        return Err(Fault::Field { left: rest.len() });
    }
    let (front, others) = rest.split_at(2);
    *rest = others;
    Ok(u16::from_be_bytes([front[0], front[1]]))
}

/// Reads a number of four bytes.
#[tactic(auto, unfolding(crate::specs::Fields::number32))]
pub fn u32_at(rest: &mut &[u8]) -> Result<u32, Fault>
    ensures { Gives (λ x. (x, rest.new.now)) result (number32.at rest.old.now) }
{
    if rest.len() < 4 {
        return Err(Fault::Field { left: rest.len() });
    }
    let (front, others) = rest.split_at(4);
    *rest = others;
    Ok(u32::from_be_bytes([front[0], front[1], front[2], front[3]]))
}

/// Reads a number of eight bytes.
#[tactic(auto, unfolding(crate::specs::Fields::number64))]
pub fn u64_at(rest: &mut &[u8]) -> Result<u64, Fault>
    ensures { Gives (λ x. (x, rest.new.now)) result (number64.at rest.old.now) }
{
    if rest.len() < 8 {
        return Err(Fault::Field { left: rest.len() });
    }
    let (front, others) = rest.split_at(8);
    *rest = others;
    Ok(u64::from_be_bytes([
        front[0], front[1], front[2], front[3], front[4], front[5], front[6], front[7],
    ]))
}

// The next `n` bytes. The fault has `left`, the number of bytes from the start of the field to the end.
fn bytes_of<'a>(rest: &mut &'a [u8], n: usize, left: usize) -> Result<&'a [u8], Fault>
    ensures { Gives (λ x. (x.now, rest.new.now)) result (bytes_of n left rest.old.now) }
{
    if rest.len() < n {
        return Err(Fault::Field { left });
    }
    let (front, others) = rest.split_at(n);
    *rest = others;
    Ok(front)
}

/// Reads bytes behind their length, a number of one byte.
pub fn short_bytes_at<'a>(rest: &mut &'a [u8]) -> Result<&'a [u8], Fault>
    ensures { Gives (λ x. (x.now, rest.new.now)) result ((sized byte).at rest.old.now) }
{
    let left = rest.len();
    let n = byte_at(rest)?;
    bytes_of(rest, n as usize, left)
}

/// Reads bytes behind their length, a number of two bytes.
pub fn middle_bytes_at<'a>(rest: &mut &'a [u8]) -> Result<&'a [u8], Fault>
    ensures { Gives (λ x. (x.now, rest.new.now)) result ((sized number16).at rest.old.now) }
{
    let left = rest.len();
    let n = u16_at(rest)?;
    bytes_of(rest, n as usize, left)
}

/// Reads bytes behind their length, a number of four bytes.
pub fn long_bytes_at<'a>(rest: &mut &'a [u8]) -> Result<&'a [u8], Fault>
    ensures { Gives (λ x. (x.now, rest.new.now)) result ((sized number32).at rest.old.now) }
{
    let left = rest.len();
    let n = u32_at(rest)?;
    bytes_of(rest, n as usize, left)
}

/// Appends the byte that tells what fields follow.
pub fn put_tag(out: &mut Vec<u8>, tag: u8) -> Result<(), OutOfMemory>
    ensures { OnOk result (out.new.items ≡ out.old.items ++ tag ∷ []) }
{
    out.push(tag)?;
    Ok(())
}

/// Appends a byte.
#[tactic(auto, unfolding(crate::specs::Fields::byte))]
pub fn put_byte(out: &mut Vec<u8>, n: u8) -> Result<(), OutOfMemory>
    ensures { OnOk result (out.new.items ≡ out.old.items ++ byte.spell n) }
{
    out.push(n)?;
    Ok(())
}

/// Appends a number of two bytes.
#[tactic(auto, unfolding(crate::specs::Fields::number16))]
pub fn put_u16(out: &mut Vec<u8>, n: u16) -> Result<(), OutOfMemory>
    ensures { OnOk result (out.new.items ≡ out.old.items ++ number16.spell n) }
{
    out.extend_from_slice(&n.to_be_bytes())?;
    Ok(())
}

/// Appends a number of four bytes.
#[tactic(auto, unfolding(crate::specs::Fields::number32))]
pub fn put_u32(out: &mut Vec<u8>, n: u32) -> Result<(), OutOfMemory>
    ensures { OnOk result (out.new.items ≡ out.old.items ++ number32.spell n) }
{
    out.extend_from_slice(&n.to_be_bytes())?;
    Ok(())
}

/// Appends a number of eight bytes.
#[tactic(auto, unfolding(crate::specs::Fields::number64))]
pub fn put_u64(out: &mut Vec<u8>, n: u64) -> Result<(), OutOfMemory>
    ensures { OnOk result (out.new.items ≡ out.old.items ++ number64.spell n) }
{
    out.extend_from_slice(&n.to_be_bytes())?;
    Ok(())
}

/// Appends bytes behind their length, a number of one byte.
#[tactic(auto, unfolding(crate::specs::Fields::byte))]
pub fn put_short_bytes(out: &mut Vec<u8>, bytes: &[u8]) -> Result<(), OutOfMemory>
    requires { (sized byte).Fits bytes.now }
    ensures { OnOk result (out.new.items ≡ out.old.items ++ (sized byte).spell bytes.now) }
{
    put_byte(out, bytes.len() as u8)?;
    out.extend_from_slice(bytes)?;
    Ok(())
}

/// Appends bytes behind their length, a number of two bytes.
#[tactic(auto, unfolding(crate::specs::Fields::number16))]
pub fn put_middle_bytes(out: &mut Vec<u8>, bytes: &[u8]) -> Result<(), OutOfMemory>
    requires { (sized number16).Fits bytes.now }
    ensures { OnOk result (out.new.items ≡ out.old.items ++ (sized number16).spell bytes.now) }
{
    put_u16(out, bytes.len() as u16)?;
    out.extend_from_slice(bytes)?;
    Ok(())
}

/// Appends bytes behind their length, a number of four bytes.
#[tactic(auto, unfolding(crate::specs::Fields::number32))]
pub fn put_long_bytes(out: &mut Vec<u8>, bytes: &[u8]) -> Result<(), OutOfMemory>
    requires { (sized number32).Fits bytes.now }
    ensures { OnOk result (out.new.items ≡ out.old.items ++ (sized number32).spell bytes.now) }
{
    put_u32(out, bytes.len() as u32)?;
    out.extend_from_slice(bytes)?;
    Ok(())
}
