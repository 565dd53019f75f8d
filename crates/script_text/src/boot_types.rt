// The types of a `boot` line: 1 to 32 different ones, joined by commas.
ghost use Rattle.std.specs.Prelude.{◌≡◌, ◌∷◌, ◌≤◌, true, length, bytes_eq, IfOk};
ghost use Rattle.std.specs.List.{list_any};
ghost use Rattle.std.specs.Option.{option_copied};
ghost use Rattle.script_text.specs.ClusterWords.{pieces_of, is_type, are_boot_types};
ghost use Rattle.script_text.specs.ClusterLines.{AreBootTypes};
ghost use Rattle.script_text.specs.LinesTold.{pieces_left_of, bytes_left_of};

use crate::lines::find_byte;
use actor_names::{ActorType, OutOfMemory, actor_type_fault, read_actor_type};
use place_table::ActorTypes;
use std::alloc::Global;

const COMMA: u8 = b',';

const MOST_TYPES: usize = 32;

/// The first piece of a text, and what follows its comma.
fn next_piece(text: &[u8]) -> (&[u8], Option<&[u8]>)
    ensures pieces { pieces_of text.now ≡ result.0.now ∷ pieces_left_of (option_copied result.1) }
    ensures shorter { bytes_left_of (option_copied result.1) ≤ length text.now }
{
    match find_byte(text, COMMA) {
        Some(end) => (&text[..end], Some(&text[end + 1..])),
        None => (text, None),
    }
}

/// Whether a piece is one of the remaining ones.
fn is_among(piece: &[u8], rest: Option<&[u8]>) -> bool
    ensures { result ≡ list_any (bytes_eq piece.now) (pieces_left_of (option_copied rest.entry)) }
{
    let mut left = rest;
    while let Some(text) = left {
        let (other, behind) = next_piece(text);
        if piece == other {
            return true;
        }
        left = behind;
    }
    false
}

/// Whether a text is an actor type.
fn is_type(text: &[u8]) -> bool
    ensures { result ≡ is_type text.now }
{
    actor_type_fault(text).is_none()
}

/// Whether a text is 1 to 32 different types, joined by commas.
#[tactic(auto, using(crate::proofs::PieceLemmas::types_full, crate::proofs::PieceLemmas::types_fault, crate::proofs::PieceLemmas::types_twice, crate::proofs::PieceLemmas::types_more))]
pub(crate) fn are_boot_types(text: &[u8]) -> bool
    ensures { result ≡ are_boot_types text.now }
{
    let mut left = Some(text);
    let mut count = 0;
    while let Some(rest) = left {
        let (piece, behind) = next_piece(rest);
        if count == MOST_TYPES || !is_type(piece) || is_among(piece, behind) {
            return false;
        }
        count += 1;
        left = behind;
    }
    true
}

/// The type of this text.
fn make_type(alloc: Global, text: &[u8]) -> Result<ActorType, OutOfMemory>
    requires { is_type text.now ≡ true }
    ensures { IfOk result (λ kind. kind ≡ text.now) }
{
    match read_actor_type(alloc, text) {
        Ok(kind) => Ok(kind),
        Err(_) => Err(OutOfMemory),
    }
}

/// The types of a text.
pub(crate) fn make_boot_types(alloc: Global, text: &[u8]) -> Result<ActorTypes, OutOfMemory>
    requires { are_boot_types text.now ≡ true }
    ensures made { IfOk result (λ kinds. kinds ≡ pieces_of text.now) }
    ensures types { IfOk result (λ kinds. AreBootTypes kinds) }
{
    let mut items = Vec::new(alloc);
    let mut left = Some(text);
    while let Some(rest) = left {
        let (piece, behind) = next_piece(rest);
        items.push(make_type(alloc, piece)?)?;
        left = behind;
    }
    Ok(ActorTypes::from_vec(items))
}
