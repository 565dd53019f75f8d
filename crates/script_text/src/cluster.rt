// What a line of a cluster script says.
ghost use Rattle.std.specs.Prelude.{◌≡◌, IfOk};
ghost use Rattle.script_text.specs.Told.{words_left};
ghost use Rattle.script_text.specs.LinesTold.{cluster_told, ReadsLine, LineIsWithinLimits};
ghost use Rattle.script_text.specs.declared.cluster.ClusterLine.TheVariants.{Does as line_does};
ghost use Rattle.world_events.specs.declared.event.WorldEvent.TheVariants.{End as end_of, Poll as poll_of, To as to_of};
ghost use Rattle.script_text.specs.ClusterLines.{call_line, number_line, at_line, boot_line, deliver_line, member_line_by, actor_line_by, other_line_by, cluster_line_by, cluster_line};

use crate::boot_types::make_boot_types;
use crate::cluster_words::{
    least_clause, make_chain, make_key, member_and_key, member_and_number, member_at,
    next_boot_types, node_at, only_member, space_clause, two_numbers,
};
use crate::error::LineError;
use crate::numbers::next_number;
use crate::setting::{
    LONGEST_LINE, Setting, chain_clause, next_column, next_key, no_more, only_number,
    setting_unless,
};
use crate::words::Words;
use std::alloc::Global;
use world_events::WorldEvent;

/// What a line of a cluster script says; the type of a setting is borrowed from it.
#[derive(Drop)]
pub enum ClusterLine<'a> {
    /// An empty line or a comment.
    Blank,
    /// Something holds for the whole script.
    Sets { setting: Setting<'a> },
    /// Something happens. `column` is that of a call's number, where a wrong one is refused, or of the moment of `at`,
    /// where one before the present moment is refused; 1 for the others.
    Does { column: u64, event: WorldEvent },
}

/// The line of an event that is refused at column 1.
fn does<'a>(event: WorldEvent) -> ClusterLine<'a>
    ensures { result ≡ line_does 1 event }
{
    ClusterLine::Does { column: 1, event }
}

/// After `call`: a number, a member, a key of its space and what may follow them.
fn call_line<'a>(alloc: Global, past: u64, words: Words<'a>) -> Result<ClusterLine<'a>, LineError>
    ensures reads { ReadsLine result (call_line past (words_left words.entry)) }
    ensures limits { IfOk result (λ line. LineIsWithinLimits line) }
{
    let column = next_column(past, words);
    let (call, words) = next_number(past, words)?;
    let (word, words) = words.next().ok_or(past)?;
    let member = member_at(word)?;
    let (key, words) = next_key(past, words)?;
    let (least, words) = least_clause(past, words)?;
    let (chain, words) = chain_clause(past, words)?;
    no_more(words)?;
    let key = make_key(alloc, &member.space, key)?;
    let chain = make_chain(alloc, chain)?;
    let event = WorldEvent::Call {
        call,
        member,
        key,
        least,
        chain,
    };
    Ok(ClusterLine::Does { column, event })
}

/// After `part`: the numbers of a message and of a part.
fn deliver_line<'a>(past: u64, words: Words<'a>) -> Result<ClusterLine<'a>, LineError>
    ensures reads { ReadsLine result (deliver_line past (words_left words.entry)) }
    ensures limits { IfOk result (λ line. LineIsWithinLimits line) }
{
    let (message, part) = two_numbers(past, words)?;
    Ok(does(WorldEvent::Part { message, part }))
}

/// After `end`: the number of a call.
fn end_line<'a>(past: u64, words: Words<'a>) -> Result<ClusterLine<'a>, LineError>
    ensures reads { ReadsLine result (number_line (λ n. end_of n) past (words_left words.entry)) }
    ensures limits { IfOk result (λ line. LineIsWithinLimits line) }
{
    let call = only_number(past, words)?;
    Ok(does(WorldEvent::End { call }))
}

/// After `poll`: the number of a call.
fn poll_line<'a>(past: u64, words: Words<'a>) -> Result<ClusterLine<'a>, LineError>
    ensures reads { ReadsLine result (number_line (λ n. poll_of n) past (words_left words.entry)) }
    ensures limits { IfOk result (λ line. LineIsWithinLimits line) }
{
    let call = only_number(past, words)?;
    Ok(does(WorldEvent::Poll { call }))
}

/// After `to`: the number of a message.
fn to_line<'a>(past: u64, words: Words<'a>) -> Result<ClusterLine<'a>, LineError>
    ensures reads { ReadsLine result (number_line (λ k. to_of k) past (words_left words.entry)) }
    ensures limits { IfOk result (λ line. LineIsWithinLimits line) }
{
    let message = only_number(past, words)?;
    Ok(does(WorldEvent::To { message }))
}

/// After `boot`: a node, its types and perhaps its space.
fn boot_line<'a>(alloc: Global, past: u64, words: Words<'a>) -> Result<ClusterLine<'a>, LineError>
    ensures reads { ReadsLine result (boot_line past (words_left words.entry)) }
    ensures limits { IfOk result (λ line. LineIsWithinLimits line) }
{
    let (word, words) = words.next().ok_or(past)?;
    let node = node_at(word)?;
    let (kinds, words) = next_boot_types(past, words)?;
    let space = space_clause(past, words)?;
    let kinds = make_boot_types(alloc, kinds)?;
    Ok(does(WorldEvent::Boot { space, node, kinds }))
}

/// After `at`: a moment.
fn at_line<'a>(past: u64, words: Words<'a>) -> Result<ClusterLine<'a>, LineError>
    ensures reads { ReadsLine result (at_line past (words_left words.entry)) }
    ensures limits { IfOk result (λ line. LineIsWithinLimits line) }
{
    let column = next_column(past, words);
    let moment = only_number(past, words)?;
    let event = WorldEvent::At { moment };
    Ok(ClusterLine::Does { column, event })
}

/// A line about the placement or time, or a setting, by its first word.
fn other_line_by<'a>(
    late: bool,
    past: u64,
    first: &[u8],
    words: Words<'a>,
) -> Result<ClusterLine<'a>, LineError>
    ensures reads { ReadsLine result (other_line_by late past first.now (words_left words.entry)) }
    ensures limits { IfOk result (λ line. LineIsWithinLimits line) }
{
    if first == b"at".as_slice() {
        return at_line(past, words);
    }
    if first == b"ptick".as_slice() {
        no_more(words)?;
        return Ok(does(WorldEvent::PlacementTick));
    }
    if first == b"restart".as_slice() {
        no_more(words)?;
        return Ok(does(WorldEvent::Restart));
    }
    let setting = setting_unless(late, past, first, words)?;
    Ok(ClusterLine::Sets { setting })
}

/// A line about the actors of a member, or about a member that boots, by its first word.
fn actor_line_by<'a>(
    alloc: Global,
    late: bool,
    past: u64,
    first: &[u8],
    words: Words<'a>,
) -> Result<ClusterLine<'a>, LineError>
    ensures reads { ReadsLine result (actor_line_by late past first.now (words_left words.entry)) }
    ensures limits { IfOk result (λ line. LineIsWithinLimits line) }
{
    if first == b"hold".as_slice() {
        let (member, key) = member_and_key(alloc, past, words)?;
        return Ok(does(WorldEvent::Hold { member, key }));
    }
    if first == b"release".as_slice() {
        let (member, key) = member_and_key(alloc, past, words)?;
        return Ok(does(WorldEvent::Release { member, key }));
    }
    if first == b"closed".as_slice() {
        let (member, key) = member_and_key(alloc, past, words)?;
        return Ok(does(WorldEvent::Closed { member, key }));
    }
    if first == b"boot".as_slice() {
        return boot_line(alloc, past, words);
    }
    other_line_by(late, past, first, words)
}

/// A line about one member or one of its parts, by its first word.
fn member_line_by<'a>(
    alloc: Global,
    late: bool,
    past: u64,
    first: &[u8],
    words: Words<'a>,
) -> Result<ClusterLine<'a>, LineError>
    ensures reads { ReadsLine result (member_line_by late past first.now (words_left words.entry)) }
    ensures limits { IfOk result (λ line. LineIsWithinLimits line) }
{
    if first == b"beat".as_slice() {
        let member = only_member(past, words)?;
        return Ok(does(WorldEvent::Beat { member }));
    }
    if first == b"collect".as_slice() {
        let member = only_member(past, words)?;
        return Ok(does(WorldEvent::Collect { member }));
    }
    if first == b"leave".as_slice() {
        let member = only_member(past, words)?;
        return Ok(does(WorldEvent::Leave { member }));
    }
    if first == b"tick".as_slice() {
        let member = only_member(past, words)?;
        return Ok(does(WorldEvent::Tick { member }));
    }
    if first == b"lost".as_slice() {
        let member = only_member(past, words)?;
        return Ok(does(WorldEvent::Lost { member }));
    }
    if first == b"closing".as_slice() {
        let (member, part) = member_and_number(past, words)?;
        return Ok(does(WorldEvent::Closing { member, part }));
    }
    if first == b"stop".as_slice() {
        let (member, part) = member_and_number(past, words)?;
        return Ok(does(WorldEvent::Stop { member, part }));
    }
    actor_line_by(alloc, late, past, first, words)
}

/// A line, by its first word.
fn line_by<'a>(
    alloc: Global,
    late: bool,
    past: u64,
    first: &[u8],
    words: Words<'a>,
) -> Result<ClusterLine<'a>, LineError>
    ensures reads { ReadsLine result (cluster_line_by late past first.now (words_left words.entry)) }
    ensures limits { IfOk result (λ line. LineIsWithinLimits line) }
{
    if first == b"call".as_slice() {
        return call_line(alloc, past, words);
    }
    if first == b"end".as_slice() {
        return end_line(past, words);
    }
    if first == b"poll".as_slice() {
        return poll_line(past, words);
    }
    if first == b"to".as_slice() {
        return to_line(past, words);
    }
    if first == b"part".as_slice() {
        return deliver_line(past, words);
    }
    member_line_by(alloc, late, past, first, words)
}

/// What a line of a cluster script says, or why it isn't read; `late` if an event line comes before it. A refused
/// line takes no memory.
pub fn read_cluster_line(
    alloc: Global,
    line: &[u8],
    late: bool,
) -> Result<ClusterLine<'_>, LineError>
    ensures reads { ReadsLine result (cluster_line late line.now) }
    ensures limits { IfOk result (λ line. LineIsWithinLimits line) }
{
    if line.len() > LONGEST_LINE {
        return Err(LineError::BadColumn {
            column: LONGEST_LINE as u64 + 1,
        });
    }
    if line.is_empty() || line[0] == b'#' {
        return Ok(ClusterLine::Blank);
    }
    let past = line.len() as u64 + 1;
    // The most frequent events are recognized by their first bytes.
    match line {
        [b'c', b'a', b'l', b'l', b' ', rest @ ..] => {
            call_line(alloc, past, Words::from_column(rest, 6))
        }
        [b'e', b'n', b'd', b' ', rest @ ..] => end_line(past, Words::from_column(rest, 5)),
        [b'p', b'o', b'l', b'l', b' ', rest @ ..] => poll_line(past, Words::from_column(rest, 6)),
        [b'p', b'a', b'r', b't', b' ', rest @ ..] => {
            deliver_line(past, Words::from_column(rest, 6))
        }
        [b't', b'o', b' ', rest @ ..] => to_line(past, Words::from_column(rest, 4)),
        _ => {
            let (first, words) = Words::new(line).next().ok_or(past)?;
            line_by(alloc, late, past, first.text, words)
        }
    }
}
