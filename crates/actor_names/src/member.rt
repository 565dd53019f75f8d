// Members: a node of a space in one of its boots, and the text `NODE/BOOT` or `SPACE:NODE/BOOT`.
ghost use Rattle.std.specs.Prelude.{◌≡◌, ◌+◌, ◌^◌, ◌<◌, Some, None, length, drop, option_map, IfOk, OnOk, option_and_then};
ghost use Rattle.actor_names.specs.Names.{before_slash, after_slash, second_fault, placed_from, space_in, local_in};
ghost use Rattle.lists_and_limits.specs.Decimals.{number_of};
ghost use Rattle.actor_names.specs.Numerals.{boot_fault, local_member_fault, member_fault};
ghost use Rattle.actor_names.specs.Reads.{ReadsInPlace};

use crate::error::NameError;
use crate::forms::{Node, Space, node_fault, read_space, space_fault};
use crate::numeral::number_fault;
use crate::slash::{first_piece, second_piece, slash_place};
use crate::spaced::{default_space, space_end};
use lists_and_limits::{LAST_NUMBER, read_decimal};

/// The greatest boot of a member.
pub const MOST_BOOT: u64 = LAST_NUMBER;

/// A node of a space in one of its boots. Copies take no memory.
#[derive(Clone, Copy, Debug, PartialEq, Eq, PartialOrd, Ord)]
pub struct Member {
    /// The space.
    pub space: Space,
    /// The node.
    pub node: Node,
    /// Which of the node's starts this is, from 1 to 2^62.
    pub boot: u64,
}

impl Member {
    /// An equal member.
    pub fn copy(&self) -> Member
        ensures { result ≡ self.now }
    {
        *self
    }
}

// The fault of what follows the node, which ends at `end`.
fn boot_part_fault(text: &[u8], end: usize) -> Option<NameError>
    requires { end ≡ length (before_slash text.now) }
    ensures { result ≡ second_fault boot_fault text.now (after_slash text.now) }
{
    let n = text.len();
    if end >= n {
        return Some(NameError::BadByte { at: n as u64 });
    }
    number_fault(text, end + 1, 1, MOST_BOOT)
}

// Why a text isn't a member without a space, `NODE/BOOT`; None if it is one.
fn local_member_fault(text: &[u8]) -> Option<NameError>
    ensures { result ≡ local_member_fault text.now }
{
    match node_fault(first_piece(text)) {
        Some(fault) => Some(fault),
        None => boot_part_fault(text, slash_place(text)),
    }
}

// Reads a member of the given space from a text without the space.
fn read_local_member(space: Space, text: &[u8]) -> Result<Member, NameError>
    ensures space { IfOk result (λ member. member.space ≡ space) }
    ensures node { IfOk result (λ member. member.node ≡ before_slash text.now) }
    ensures boot { IfOk result (λ member. Some member.boot ≡ option_and_then (number_of (2 ^ 62)) (after_slash text.now)) }
    ensures sound { OnOk result (local_member_fault text.now ≡ None) }
    ensures refused { ReadsInPlace (local_member_fault text.now) result }
{
    match local_member_fault(text) {
        Some(fault) => Err(fault),
        None => {
            let node = Node::from_bytes(first_piece(text));
            let boot = read_decimal(second_piece(text), MOST_BOOT).unwrap();
            Ok(Member { space, node, boot })
        }
    }
}

// The fault of the member after a space that ends at `end`; its place is counted in the whole text.
fn behind_space_fault(text: &[u8], end: usize) -> Option<NameError>
    requires { end < length text.now }
    ensures { result ≡ option_map (placed_from (end + 1)) (local_member_fault (drop (end + 1) text.now)) }
{
    match local_member_fault(&text[end + 1..]) {
        Some(NameError::BadByte { at }) => Some(NameError::BadByte {
            at: end as u64 + 1 + at,
        }),
        other => other,
    }
}

/// Why a text isn't a member, `NODE/BOOT` or `SPACE:NODE/BOOT`; None if it is one.
pub fn member_fault(text: &[u8]) -> Option<NameError>
    ensures { result ≡ member_fault text.now }
{
    match space_end(text) {
        None => local_member_fault(text),
        Some(end) => match space_fault(&text[..end]) {
            Some(fault) => Some(fault),
            None => behind_space_fault(text, end),
        },
    }
}

/// Reads a member, `NODE/BOOT` in the space `default` or `SPACE:NODE/BOOT`; takes no memory.
pub fn read_member(text: &[u8]) -> Result<Member, NameError>
    ensures space { IfOk result (λ member. member.space ≡ space_in text.now) }
    ensures node { IfOk result (λ member. member.node ≡ before_slash (local_in text.now)) }
    ensures boot { IfOk result (λ member. Some member.boot ≡ option_and_then (number_of (2 ^ 62)) (after_slash (local_in text.now))) }
    ensures sound { OnOk result (member_fault text.now ≡ None) }
    ensures refused { ReadsInPlace (member_fault text.now) result }
{
    match space_end(text) {
        None => read_local_member(default_space(), text),
        Some(end) => match read_space(&text[..end]) {
            Err(fault) => Err(fault),
            Ok(space) => match behind_space_fault(text, end) {
                Some(fault) => Err(fault),
                None => read_local_member(space, &text[end + 1..]),
            },
        },
    }
}
