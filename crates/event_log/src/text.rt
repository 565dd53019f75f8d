// The texts of lines.
ghost use Rattle.std.specs.Prelude.{◌≡◌, ◌++◌, OnOk, codes};
ghost use Rattle.event_log.specs.Lines.{compacted_line, counted, dismissal_text, line_text, lost_text, member_line, notice_text, peer_text, placed, refusal_line, round_end, round_line};

use crate::batch::Line;
use crate::notice::{Dismissal, Notice, Peer};
use crate::stamp::push_stamp;
use actor_names::{Address, Member, OutOfMemory, Space};
use call_names::{add_address, add_decimal, add_member};
use std::alloc::Global;

// Appends bytes.
fn push(into: &mut Vec<u8>, bytes: &[u8]) -> Result<(), OutOfMemory>
    ensures { OnOk result (into.new.items ≡ into.old.items ++ bytes.now) }
{
    into.extend_from_slice(bytes)?;
    Ok(())
}

// Appends words, a number and words behind it.
fn push_counted(into: &mut Vec<u8>, front: &[u8], n: u64, back: &[u8]) -> Result<(), OutOfMemory>
    ensures { OnOk result (into.new.items ≡ into.old.items ++ counted front.now n back.now) }
{
    push(into, front)?;
    add_decimal(into, n)?;
    push(into, back)
}

// Appends an address between words.
fn push_placed(
    into: &mut Vec<u8>,
    front: &[u8],
    at: &Address,
    back: &[u8],
) -> Result<(), OutOfMemory>
    ensures { OnOk result (into.new.items ≡ into.old.items ++ placed front.now at.now back.now) }
{
    push(into, front)?;
    add_address(into, at)?;
    push(into, back)
}

// Appends what is said of a member.
fn push_member(into: &mut Vec<u8>, member: &Member, back: &[u8]) -> Result<(), OutOfMemory>
    ensures { OnOk result (into.new.items ≡ into.old.items ++ member_line member.now back.now) }
{
    push(into, b"member ")?;
    add_member(into, member)?;
    push(into, back)
}

// Appends what is said of a round.
fn push_round(
    into: &mut Vec<u8>,
    space: &Space,
    version: u64,
    back: &[u8],
) -> Result<(), OutOfMemory>
    ensures { OnOk result (into.new.items ≡ into.old.items ++ round_line space.now version back.now) }
{
    push_counted(into, b"round ", version, b" of ")?;
    push(into, space.as_slice())?;
    push(into, back)
}

// Appends that a round has ended.
fn push_round_end(
    into: &mut Vec<u8>,
    space: &Space,
    version: u64,
    within_ms: u64,
) -> Result<(), OutOfMemory>
    ensures { OnOk result (into.new.items ≡ into.old.items ++ round_end space.now version within_ms) }
{
    push_round(into, space, version, b" ended within ")?;
    push_counted(into, b"", within_ms, b" ms")
}

// Appends what is said of a compaction.
fn push_compacted(into: &mut Vec<u8>, rows: u64, len: u64) -> Result<(), OutOfMemory>
    ensures { OnOk result (into.new.items ≡ into.old.items ++ compacted_line rows len) }
{
    push_counted(into, b"compacted to ", rows, b" rows in ")?;
    push_counted(into, b"", len, b" bytes")
}

// Appends with which code a store refused.
fn push_refusal(into: &mut Vec<u8>, at: &Address, code: u8) -> Result<(), OutOfMemory>
    ensures { OnOk result (into.new.items ≡ into.old.items ++ refusal_line at.now code) }
{
    push_placed(into, b"the store at ", at, b" refused with code ")?;
    add_decimal(into, code as u64)
}

// The words in front of a process's address.
fn peer_text(peer: Peer) -> &'static [u8]
    ensures { result.now ≡ peer_text peer }
{
    match peer {
        Peer::Placement => b"the placement at ",
        Peer::Store => b"the store at ",
        Peer::Application => b"the application at ",
    }
}

// Appends why a placement has sent a sidecar away.
fn push_dismissal(into: &mut Vec<u8>, why: Dismissal) -> Result<(), OutOfMemory>
    ensures { OnOk result (into.new.items ≡ into.old.items ++ dismissal_text why) }
{
    match why {
        Dismissal::StaleBoot { greatest } => push_counted(into, b"stale-boot ", greatest, b""),
        Dismissal::NotMember { greatest } => push_counted(into, b"not-member ", greatest, b""),
        Dismissal::SpacesFull { spaces } => {
            push_counted(into, b"spaces-full ", u64::from(spaces), b"")
        }
        Dismissal::Full { members } => push_counted(into, b"full ", u64::from(members), b""),
    }
}

// Appends a notice.
fn push_notice(into: &mut Vec<u8>, notice: &Notice) -> Result<(), OutOfMemory>
    ensures { OnOk result (into.new.items ≡ into.old.items ++ notice_text notice.now) }
{
    match notice {
        Notice::Listening { at } => push_placed(into, b"listening at ", at, b""),
        Notice::Joined { member } => push_member(into, member, b" joined"),
        Notice::Left { member } => push_member(into, member, b" left"),
        Notice::Lost { member } => push_member(into, member, b" is lost"),
        Notice::Gone { member } => push_member(into, member, b" is gone"),
        Notice::RoundBegan { space, version } => push_round(into, space, *version, b" began"),
        Notice::RoundEnded {
            space,
            version,
            within_ms,
        } => push_round_end(into, space, *version, *within_ms),
        Notice::Compacted { rows, len } => push_compacted(into, *rows, *len),
        Notice::NotCompacted => push(into, b"a compaction couldn't be made"),
        Notice::DiskFailed => push(into, b"stops: a disk failed"),
        Notice::LeaseEnded { silent_ms } => {
            push_counted(into, b"stops: the lease ended after ", *silent_ms, b" ms")
        }
        Notice::Dismissed { why } => {
            push(into, b"stops: the placement answered ")?;
            push_dismissal(into, *why)
        }
        Notice::Away { peer, at } => push_placed(into, peer_text(*peer), at, b" is away"),
        Notice::Back { peer, at } => push_placed(into, peer_text(*peer), at, b" is back"),
        Notice::StoreRefused { at, code } => push_refusal(into, at, *code),
        Notice::NotConfigured { at } => push_placed(
            into,
            peer_text(Peer::Application),
            at,
            b" gave no configuration",
        ),
        Notice::Attached => push(into, b"a placement is connected"),
        Notice::Detached { calls } => {
            push_counted(into, b"the placement is gone after ", *calls, b" calls")
        }
        Notice::Ended => push(into, b"ends"),
    }
}

/// Appends a line of the log: its moment in UTC, as `YYYY-MM-DDThh:mm:ss.mmmZ`, a space, what happened, and a line feed.
pub fn push_line(alloc: Global, into: &mut Vec<u8>, line: &Line) -> Result<(), OutOfMemory>
    ensures { OnOk result (into.new.items ≡ into.old.items ++ line_text line.now) }
{
    push_stamp(alloc, into, line.at_ms)?;
    push_notice(into, &line.notice)?;
    push(into, b"\n")
}

/// Appends a line that says how many lines were lost up to a moment, in milliseconds since 1970.
pub fn push_lost(
    alloc: Global,
    into: &mut Vec<u8>,
    at_ms: u64,
    lost: u64,
) -> Result<(), OutOfMemory>
    ensures { OnOk result (into.new.items ≡ into.old.items ++ lost_text at_ms lost) }
{
    push_stamp(alloc, into, at_ms)?;
    push_counted(into, b"", lost, b" lines were lost\n")
}
