// The words that only the lines of cluster scripts have.
ghost use Rattle.std.specs.Prelude.{◌≡◌, None, Some, true, IfOk, IfErr};
ghost use Rattle.std.specs.Option.{option_copied, ForSome};
ghost use Rattle.actor_names.specs.Names.{local_key_fault, chain_id_fault};
ghost use Rattle.script_text.specs.Told.{Gives, GivesValue, words_left};
ghost use Rattle.script_text.specs.LinesTold.{Reads};
ghost use Rattle.script_text.specs.Reading.{number_in, key_in, next_as, only_as};
ghost use Rattle.script_text.specs.ClusterWords.{member_in, node_in, space_named, space_clause, boot_types_in, are_boot_types, pieces_of, key_of, least_clause};
ghost use Rattle.script_text.specs.ClusterLines.{two_as, actor_words};

use crate::boot_types::are_boot_types;
use crate::error::LineError;
use crate::numbers::next_number;
use crate::setting::{next_key, no_more, only_number};
use crate::words::{Token, Words};
use actor_names::{
    ActorKey, ChainId, Member, Node, OutOfMemory, Space, default_space, read_chain_id,
    read_local_key, read_member, read_node, read_space,
};
use std::alloc::Global;

/// A word as a member.
pub(crate) fn member_at(word: Token<'_>) -> Result<Member, u64>
    ensures read { IfOk result (λ member. member_in word.entry.text.now ≡ Some member) }
    ensures refused { IfErr result (λ column. (member_in word.entry.text.now ≡ None) × (column ≡ word.entry.column)) }
{
    match read_member(word.text) {
        Ok(member) => Ok(member),
        Err(_) => Err(word.column),
    }
}

/// A word as a node.
pub(crate) fn node_at(word: Token<'_>) -> Result<Node, u64>
    ensures read { IfOk result (λ node. node_in word.entry.text.now ≡ Some node) }
    ensures refused { IfErr result (λ column. (node_in word.entry.text.now ≡ None) × (column ≡ word.entry.column)) }
{
    match read_node(word.text) {
        Ok(node) => Ok(node),
        Err(_) => Err(word.column),
    }
}

/// A word as a space.
fn space_at(word: Token<'_>) -> Result<Space, u64>
    ensures read { IfOk result (λ space. space_named word.entry.text.now ≡ Some space) }
    ensures refused { IfErr result (λ column. (space_named word.entry.text.now ≡ None) × (column ≡ word.entry.column)) }
{
    match read_space(word.text) {
        Ok(space) => Ok(space),
        Err(_) => Err(word.column),
    }
}

/// A space and nothing more.
fn only_space(past: u64, words: Words<'_>) -> Result<Space, u64>
    ensures { GivesValue (λ space. space) result (only_as space_named past (words_left words.entry)) }
{
    let (word, words) = words.next().ok_or(past)?;
    let space = space_at(word)?;
    no_more(words)?;
    Ok(space)
}

/// Nothing, which means the space `default`, or `space` and a space; and nothing more.
pub(crate) fn space_clause(past: u64, words: Words<'_>) -> Result<Space, u64>
    ensures { GivesValue (λ space. space) result (space_clause past (words_left words.entry)) }
{
    match words.next() {
        None => Ok(default_space()),
        Some((word, words)) => {
            let [b's', b'p', b'a', b'c', b'e'] = word.text else {
                return Err(word.column);
            };
            only_space(past, words)
        }
    }
}

/// The next word as the types of a `boot` line.
pub(crate) fn next_boot_types<'a>(past: u64, words: Words<'a>) -> Result<(&'a [u8], Words<'a>), u64>
    ensures reads { Gives (λ kinds. pieces_of kinds.now) result (next_as boot_types_in past (words_left words.entry)) }
    ensures types { IfOk result (λ r. are_boot_types r.0.now ≡ true) }
{
    let (word, words) = words.next().ok_or(past)?;
    if are_boot_types(word.text) {
        Ok((word.text, words))
    } else {
        Err(word.column)
    }
}

/// Nothing, which means 0, or `least` and a version.
pub(crate) fn least_clause<'a>(past: u64, words: Words<'a>) -> Result<(u64, Words<'a>), u64>
    ensures { Gives (λ version. version) result (least_clause past (words_left words.entry)) }
{
    match words.next() {
        None => Ok((0, words)),
        Some((word, behind)) => {
            let [b'l', b'e', b'a', b's', b't'] = word.text else {
                return Ok((0, words));
            };
            next_number(past, behind)
        }
    }
}

/// A member and nothing more.
pub(crate) fn only_member(past: u64, words: Words<'_>) -> Result<Member, u64>
    ensures { GivesValue (λ member. member) result (only_as member_in past (words_left words.entry)) }
{
    let (word, words) = words.next().ok_or(past)?;
    let member = member_at(word)?;
    no_more(words)?;
    Ok(member)
}

/// A key and nothing more.
fn only_key<'a>(past: u64, words: Words<'a>) -> Result<&'a [u8], u64>
    ensures reads { GivesValue (λ key. key.now) result (only_as key_in past (words_left words.entry)) }
    ensures sound { IfOk result (λ key. local_key_fault key.now ≡ None) }
{
    let (key, words) = next_key(past, words)?;
    no_more(words)?;
    Ok(key)
}

/// Two numbers and nothing more.
pub(crate) fn two_numbers(past: u64, words: Words<'_>) -> Result<(u64, u64), u64>
    ensures { GivesValue (λ w. w) result (two_as number_in number_in past (words_left words.entry)) }
{
    let (first, words) = next_number(past, words)?;
    let (second, words) = next_number(past, words)?;
    no_more(words)?;
    Ok((first, second))
}

/// A member, a number and nothing more.
pub(crate) fn member_and_number(past: u64, words: Words<'_>) -> Result<(Member, u64), u64>
    ensures { GivesValue (λ w. w) result (two_as member_in number_in past (words_left words.entry)) }
{
    let (word, words) = words.next().ok_or(past)?;
    let member = member_at(word)?;
    let number = only_number(past, words)?;
    Ok((member, number))
}

/// The key of this text in a space.
pub(crate) fn make_key(alloc: Global, space: &Space, text: &[u8]) -> Result<ActorKey, OutOfMemory>
    requires { local_key_fault text.now ≡ None }
    ensures { IfOk result (λ key. key ≡ key_of space.now text.now) }
{
    match read_local_key(alloc, space, text) {
        Ok(key) => Ok(key),
        Err(_) => Err(OutOfMemory),
    }
}

/// The chain of this text, if there is one.
pub(crate) fn make_chain(alloc: Global, text: Option<&[u8]>) -> Result<Option<ChainId>, OutOfMemory>
    requires { ForSome text (λ t. chain_id_fault t.now ≡ None) }
    ensures { IfOk result (λ chain. chain ≡ option_copied text.entry) }
{
    match text {
        None => Ok(None),
        Some(text) => match read_chain_id(alloc, text) {
            Ok(chain) => Ok(Some(chain)),
            Err(_) => Err(OutOfMemory),
        },
    }
}

/// A member, the key of an actor of its space and nothing more.
pub(crate) fn member_and_key(
    alloc: Global,
    past: u64,
    words: Words<'_>,
) -> Result<(Member, ActorKey), LineError>
    ensures { Reads result (actor_words past (words_left words.entry)) }
{
    let (word, words) = words.next().ok_or(past)?;
    let member = member_at(word)?;
    let key = only_key(past, words)?;
    let key = make_key(alloc, &member.space, key)?;
    Ok((member, key))
}
