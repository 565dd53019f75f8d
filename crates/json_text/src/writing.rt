// Texts that are put together from pieces. A text that exists already isn't read again.
ghost use Rattle.std.specs.Prelude.{◌≡◌, ◌++◌, map, decimal, IfOk, OnOk};
ghost use Rattle.json.specs.Print.{quoted};
ghost use Rattle.json_text.specs.Texts.{after_commas, between_commas, in_braces, in_brackets, text_of};
ghost use Rattle.json_text.specs.Values.{Items, Members, array, object};
ghost use Rattle.json_text.specs.Written.{AreItems, AreMembers, member_text, piece_text};

use serde_json::Value;
use std::alloc::{AllocError, Global};

/// A value in a text that is being made.
#[derive(Clone, Copy)]
pub enum Piece<'a> {
    /// The text of a value, which is copied as it is.
    Kept(&'a [u8]),
    /// A text, which is quoted.
    Text(&'a str),
    /// A number, in decimal.
    Natural(u64),
    /// `null`.
    Null,
}

/// A member of an object that is being made.
#[derive(Clone, Copy)]
pub struct Member<'a> {
    pub key: &'a str,
    pub value: Piece<'a>,
}

/// The text in quotes, with the shortest escapes.
pub fn quoted_text(alloc: Global, text: &str) -> Result<Vec<u8>, AllocError>
    ensures { IfOk result (λ b. b.items ≡ quoted text.now) }
{
    Value::try_from_str(alloc, text)?.to_vec(alloc)
}

// The digits of a number.
fn digits(alloc: Global, number: u64) -> Result<Vec<u8>, AllocError>
    ensures { IfOk result (λ b. b.items ≡ decimal number) }
{
    Value::from(number).to_vec(alloc)
}

fn push_quoted(out: &mut Vec<u8>, text: &str) -> Result<(), AllocError>
    ensures { OnOk result (out.new.items ≡ out.old.items ++ quoted text.now) }
{
    let bytes = quoted_text(*out.allocator(), text)?;
    out.extend_from_slice(&bytes)?;
    Ok(())
}

fn push_digits(out: &mut Vec<u8>, number: u64) -> Result<(), AllocError>
    ensures { OnOk result (out.new.items ≡ out.old.items ++ decimal number) }
{
    let bytes = digits(*out.allocator(), number)?;
    out.extend_from_slice(&bytes)?;
    Ok(())
}

fn push_piece(out: &mut Vec<u8>, piece: &Piece<'_>) -> Result<(), AllocError>
    ensures { OnOk result (out.new.items ≡ out.old.items ++ piece_text piece.now) }
{
    match piece {
        Piece::Kept(text) => {
            out.extend_from_slice(text)?;
            Ok(())
        }
        Piece::Text(text) => push_quoted(out, text),
        Piece::Natural(number) => push_digits(out, *number),
        Piece::Null => {
            out.extend_from_slice(b"null")?;
            Ok(())
        }
    }
}

fn push_member(out: &mut Vec<u8>, member: &Member<'_>) -> Result<(), AllocError>
    ensures { OnOk result (out.new.items ≡ out.old.items ++ member_text member.now) }
{
    push_quoted(out, member.key)?;
    out.push(b':')?;
    push_piece(out, &member.value)
}

// Appends each piece with a comma before it.
fn push_more_pieces(out: &mut Vec<u8>, pieces: &[Piece<'_>]) -> Result<(), AllocError>
    ensures { OnOk result (out.new.items
        ≡ out.old.items ++ after_commas (map piece_text pieces.now)) }
{
    for piece in pieces {
        out.push(b',')?;
        push_piece(out, piece)?;
    }
    Ok(())
}

fn push_pieces(out: &mut Vec<u8>, pieces: &[Piece<'_>]) -> Result<(), AllocError>
    ensures { OnOk result (out.new.items
        ≡ out.old.items ++ between_commas (map piece_text pieces.now)) }
{
    match pieces.split_first() {
        Some((first, more)) => {
            push_piece(out, first)?;
            push_more_pieces(out, more)
        }
        None => Ok(()),
    }
}

// Appends each member with a comma before it.
fn push_more_members(out: &mut Vec<u8>, members: &[Member<'_>]) -> Result<(), AllocError>
    ensures { OnOk result (out.new.items
        ≡ out.old.items ++ after_commas (map member_text members.now)) }
{
    for member in members {
        out.push(b',')?;
        push_member(out, member)?;
    }
    Ok(())
}

fn push_members(out: &mut Vec<u8>, members: &[Member<'_>]) -> Result<(), AllocError>
    ensures { OnOk result (out.new.items
        ≡ out.old.items ++ between_commas (map member_text members.now)) }
{
    match members.split_first() {
        Some((first, more)) => {
            push_member(out, first)?;
            push_more_members(out, more)
        }
        None => Ok(()),
    }
}

fn bracketed(alloc: Global, items: &[Piece<'_>]) -> Result<Vec<u8>, AllocError>
    ensures { IfOk result (λ b. b.items ≡ in_brackets (map piece_text items.now)) }
{
    let mut out = Vec::new(alloc);
    out.push(b'[')?;
    push_pieces(&mut out, items)?;
    out.push(b']')?;
    Ok(out)
}

fn braced(alloc: Global, members: &[Member<'_>]) -> Result<Vec<u8>, AllocError>
    ensures { IfOk result (λ b. b.items ≡ in_braces (map member_text members.now)) }
{
    let mut out = Vec::new(alloc);
    out.push(b'{')?;
    push_members(&mut out, members)?;
    out.push(b'}')?;
    Ok(out)
}

/// The text of an array of these items, in their order.
pub fn array_text(alloc: Global, items: &[Piece<'_>]) -> Result<Vec<u8>, AllocError>
    ensures text { IfOk result (λ b. b.items ≡ in_brackets (map piece_text items.now)) }
    ensures value { (vs : Items) → AreItems items.now vs
        → IfOk result (λ b. b.items ≡ text_of (array vs)) }
{
    let text = bracketed(alloc, items)?;
    Ok(text)
}

/// The text of an object of these members, in their order. If that is the byte order of their keys, it is the text of
/// a value as `Json::read` gives it.
pub fn object_text(alloc: Global, members: &[Member<'_>]) -> Result<Vec<u8>, AllocError>
    ensures text { IfOk result (λ b. b.items ≡ in_braces (map member_text members.now)) }
    ensures value { (vs : Members) → AreMembers members.now vs
        → IfOk result (λ b. b.items ≡ text_of (object vs)) }
{
    let text = braced(alloc, members)?;
    Ok(text)
}
