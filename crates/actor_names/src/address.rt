// Addresses: where a node listens, and the text `A.B.C.D:PORT`.
ghost use Rattle.std.specs.Prelude.{◌≡◌, ◌≤◌, drop, length, IfOk};
ghost use Rattle.actor_names.specs.Addresses.{address_fault, address_reading, part_reading, port_reading};

use crate::error::NameError;
use crate::numeral::numeral_end;
use lists_and_limits::read_decimal;

/// An IPv4 address and a port. Copies take no memory.
#[derive(Clone, Copy, Debug, PartialEq, Eq)]
pub struct Address {
    /// The four numbers; the first is the highest byte.
    pub ip: u32,
    /// The port.
    pub port: u16,
}

impl Address {
    /// An equal address.
    pub fn copy(&self) -> Address
        ensures { result ≡ self.now }
    {
        *self
    }
}

// A number that was read, and `next`, the place after the byte that joins it to the next number.
#[derive(Clone, Copy)]
struct Part {
    number: u64,
    next: usize,
}

// Reads a number up to 255 that begins at `start`, and the byte `joint` after it.
fn read_part(text: &[u8], start: usize, joint: u8) -> Result<Part, NameError>
    requires { start ≤ length text.now }
    ensures reading { result ≡ part_reading joint start (drop start text.now) }
    ensures next { IfOk result (λ part. part.next ≤ length text.now) }
    ensures number { IfOk result (λ part. part.number ≤ 255) }
{
    let end = numeral_end(text, start);
    match read_decimal(&text[start..end], 255) {
        None => Err(NameError::BadByte { at: start as u64 }),
        Some(number) => {
            if end >= text.len() {
                Err(NameError::BadByte { at: end as u64 })
            } else if text[end] != joint {
                Err(NameError::BadByte { at: end as u64 })
            } else {
                Ok(Part {
                    number,
                    next: end + 1,
                })
            }
        }
    }
}

// Reads a port that begins at `start` and ends the text.
fn read_port(text: &[u8], start: usize) -> Result<u64, NameError>
    requires { start ≤ length text.now }
    ensures reading { result ≡ port_reading start (drop start text.now) }
    ensures number { IfOk result (λ port. port ≤ 65535) }
{
    let end = numeral_end(text, start);
    match read_decimal(&text[start..end], 65535) {
        None => Err(NameError::BadByte { at: start as u64 }),
        Some(number) => {
            if end < text.len() {
                Err(NameError::BadByte { at: end as u64 })
            } else {
                Ok(number)
            }
        }
    }
}

/// Reads an address; takes no memory.
pub fn read_address(text: &[u8]) -> Result<Address, NameError>
    ensures { result ≡ address_reading text.now }
{
    let a = read_part(text, 0, b'.')?;
    let b = read_part(text, a.next, b'.')?;
    let c = read_part(text, b.next, b'.')?;
    let d = read_part(text, c.next, b':')?;
    let port = read_port(text, d.next)?;
    let ip = ((a.number * 256 + b.number) * 256 + c.number) * 256 + d.number;
    Ok(Address {
        ip: ip as u32,
        port: port as u16,
    })
}

/// Why a text isn't an address; None if it is one.
pub fn address_fault(text: &[u8]) -> Option<NameError>
    ensures { result ≡ address_fault text.now }
{
    read_address(text).err()
}
