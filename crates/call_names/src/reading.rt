// Reads the name of a forwarded call.
ghost use Rattle.std.specs.Prelude.{◌≡◌, ◌==◌, ◌<◌, length, position, IfSome, option_map};
ghost use Rattle.call_names.specs.Readings.{cut, member_in, call_of, call_reading};

use crate::name::CallName;
use actor_names::{Member, read_member};
use lists_and_limits::{LAST_NUMBER, read_decimal};

// The greatest number of a part.
const LAST_PART: u64 = 255;

// The place of the first space.
fn space_place(text: &[u8]) -> Option<usize>
    ensures place { result ≡ position (λ b. b == 32) text.now }
    ensures within { IfSome result (λ at. at < length text.now) }
{
    text.iter().position(|b| *b == b' ')
}

/// What stands before and behind the first space.
pub fn cut(text: &[u8]) -> Option<(&[u8], &[u8])>
    ensures { option_map (λ p. (p.0.now, p.1.now)) result ≡ cut text.now }
{
    match space_place(text) {
        None => None,
        Some(at) => Some((&text[..at], &text[at + 1..])),
    }
}

/// The member that a text names; takes no memory.
pub fn member_in(text: &[u8]) -> Option<Member>
    ensures { result ≡ member_in text.now }
{
    match read_member(text) {
        Ok(member) => Some(member),
        Err(_) => None,
    }
}

// The name that these three texts tell.
fn call_of(member: &[u8], part: &[u8], number: &[u8]) -> Option<CallName>
    ensures { result ≡ call_of member.now part.now number.now }
{
    let origin = member_in(member)?;
    let part = read_decimal(part, LAST_PART)?;
    let number = read_decimal(number, LAST_NUMBER)?;
    Some(CallName {
        origin,
        part: part as u8,
        number,
    })
}

/// Reads `MEMBER PART NUMBER`, with one space between them: a member, a part from 0 to 255 and a number from 0 to 2^62.
/// `None` for any other text. Takes no memory.
#[tactic(auto, unfolding(crate::specs::Readings::call_reading))]
pub fn read_call(text: &[u8]) -> Option<CallName>
    ensures { result ≡ call_reading text.now }
{
    let Some((member, more)) = cut(text) else {
        return None;
    };
    let Some((part, number)) = cut(more) else {
        return None;
    };
    call_of(member, part, number)
}
