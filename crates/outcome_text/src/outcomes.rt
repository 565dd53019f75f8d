// The line that an outcome of a cluster script prints.
ghost use Rattle.std.specs.Prelude.{◌≡◌, ◌≤◌, ◌++◌, length, decimal, codes, OnOk, OnErr};
ghost use Rattle.outcome_text.specs.Outcomes.{outcome_text, message_text, member_text, key_text, stage_text, reply_text, turn_text};
ghost use Rattle.world_events.specs.declared.outcome.Outcome.TheVariants.{Updated as updated, Closed as closed};

use crate::line_buffer::OutcomeLine;
use crate::members::append_member;
use crate::names::append_pair;
use crate::restarts::add_restart;
use crate::turn_outcomes::{write_number, write_turn_outcome, write_two};
use actor_names::{ActorKey, Member};
use place_table::AckStage;
use round_core::PlaceReply;
use std::alloc::AllocError;
use world_events::{Outcome, TurnOutcome};

/// Adds a word with the line's end.
fn add_word(into: &mut Vec<u8>, word: &str) -> Result<(), AllocError>
    ensures added { OnOk result (into.new.items ≡ into.old.items ++ word.now) }
    ensures unchanged { OnErr result (into.new.items ≡ into.old.items) }
{
    into.extend_from_slice(word.as_bytes())
}

/// Adds a word and a number after it.
fn add_number(
    line: &mut OutcomeLine,
    into: &mut Vec<u8>,
    word: &str,
    number: u64,
) -> Result<(), AllocError>
    requires { length word.now ≤ 15 }
    ensures added { OnOk result (into.new.items ≡ into.old.items ++ (word.now ++ decimal number ++ codes "\n")) }
    ensures unchanged { OnErr result (into.new.items ≡ into.old.items) }
{
    write_number(line, word, number);
    into.extend_from_slice(line.as_slice())
}

/// Adds two words with a number after each.
fn add_two(
    line: &mut OutcomeLine,
    into: &mut Vec<u8>,
    word: &str,
    number: u64,
    second_word: &str,
    second: u64,
) -> Result<(), AllocError>
    requires first_word { length word.now ≤ 15 }
    requires second_word { length second_word.now ≤ 15 }
    ensures added { OnOk result (into.new.items ≡ into.old.items ++ (word.now ++ decimal number ++ second_word.now ++ decimal second ++ codes "\n")) }
    ensures unchanged { OnErr result (into.new.items ≡ into.old.items) }
{
    write_two(line, word, number, second_word, second);
    into.extend_from_slice(line.as_slice())
}

/// Adds the line of a turn's outcome.
pub(crate) fn add_turn(
    line: &mut OutcomeLine,
    into: &mut Vec<u8>,
    outcome: &TurnOutcome,
) -> Result<(), AllocError>
    ensures added { OnOk result (into.new.items ≡ into.old.items ++ turn_text outcome.now) }
    ensures unchanged { OnErr result (into.new.items ≡ into.old.items) }
{
    write_turn_outcome(line, outcome);
    into.extend_from_slice(line.as_slice())
}

/// Adds the line of a part that has opened.
fn add_opened(
    line: &mut OutcomeLine,
    into: &mut Vec<u8>,
    version: u64,
    begun: u32,
    moved: u32,
) -> Result<(), AllocError>
    ensures added { OnOk result (into.new.items ≡ into.old.items ++ (codes "open " ++ decimal version ++ codes " begun " ++ decimal begun ++ codes " moved " ++ decimal moved ++ codes "\n")) }
    ensures unchanged { OnErr result (into.new.items ≡ into.old.items) }
{
    write_two(line, " begun ", begun as u64, " moved ", moved as u64);
    line.put_number(version);
    line.put_word("open ");
    into.extend_from_slice(line.as_slice())
}

/// Adds the line of a part that has the round's table.
fn add_updated(
    line: &mut OutcomeLine,
    into: &mut Vec<u8>,
    version: u64,
    drained: bool,
) -> Result<(), AllocError>
    ensures added { OnOk result (into.new.items ≡ into.old.items ++ outcome_text (updated version drained)) }
    ensures unchanged { OnErr result (into.new.items ≡ into.old.items) }
{
    line.clear();
    line.put_word(if drained { " drained\n" } else { " draining\n" });
    line.put_number(version);
    line.put_word("updated ");
    into.extend_from_slice(line.as_slice())
}

/// Adds the line of an acknowledgement.
fn add_ack(
    line: &mut OutcomeLine,
    into: &mut Vec<u8>,
    message: u64,
    stage: AckStage,
    version: u64,
) -> Result<(), AllocError>
    ensures added { OnOk result (into.new.items ≡ into.old.items ++ (message_text message ++ stage_text stage ++ decimal version ++ codes "\n")) }
    ensures unchanged { OnErr result (into.new.items ≡ into.old.items) }
{
    match stage {
        AckStage::Lock => add_two(line, into, "msg ", message, " ack lock ", version),
        AckStage::Update => add_two(line, into, "msg ", message, " ack update ", version),
        AckStage::Unlock => add_two(line, into, "msg ", message, " ack unlock ", version),
    }
}

/// Adds a message's number and what is said of it, with a number.
fn add_message(
    line: &mut OutcomeLine,
    into: &mut Vec<u8>,
    message: u64,
    word: &str,
    number: u64,
) -> Result<(), AllocError>
    requires { length word.now ≤ 15 }
    ensures added { OnOk result (into.new.items ≡ into.old.items ++ (message_text message ++ (word.now ++ decimal number) ++ codes "\n")) }
    ensures unchanged { OnErr result (into.new.items ≡ into.old.items) }
{
    add_two(line, into, "msg ", message, word, number)
}

/// Adds a message's number and what is said of it.
fn add_note(
    line: &mut OutcomeLine,
    into: &mut Vec<u8>,
    message: u64,
    word: &str,
) -> Result<(), AllocError>
    requires { length word.now ≤ 15 }
    ensures added { OnOk result (into.new.items ≡ into.old.items ++ (message_text message ++ word.now ++ codes "\n")) }
    ensures unchanged { OnErr result (into.new.items ≡ into.old.items) }
{
    line.clear();
    line.put_word("\n");
    line.put_word(word);
    line.put_number(message);
    line.put_word("msg ");
    into.extend_from_slice(line.as_slice())
}

/// Adds the line of an answer of the placement.
fn add_answer(
    line: &mut OutcomeLine,
    into: &mut Vec<u8>,
    message: u64,
    reply: &PlaceReply,
) -> Result<(), AllocError>
    ensures added { OnOk result (into.new.items ≡ into.old.items ++ (message_text message ++ reply_text reply.now ++ codes "\n")) }
    ensures unchanged { OnErr result (into.new.items ≡ into.old.items) }
{
    match *reply {
        PlaceReply::Lock { version } => add_message(line, into, message, " lock ", version),
        PlaceReply::Update { version } => add_message(line, into, message, " update ", version),
        PlaceReply::Unlock { version } => add_message(line, into, message, " unlock ", version),
        PlaceReply::Idle => add_note(line, into, message, " idle"),
        PlaceReply::Gone => add_note(line, into, message, " gone"),
        PlaceReply::StaleBoot { greatest } => {
            add_message(line, into, message, " stale-boot ", greatest)
        }
        PlaceReply::NodeBusy { boot } => add_message(line, into, message, " node-busy ", boot),
        PlaceReply::NotMember { greatest } => {
            add_message(line, into, message, " not-member ", greatest)
        }
        PlaceReply::SpacesFull { spaces } => {
            add_message(line, into, message, " spaces-full ", spaces as u64)
        }
        PlaceReply::Full { .. } => add_note(line, into, message, " full"),
        PlaceReply::Ticked { .. } | PlaceReply::Looked | PlaceReply::OutOfMemory => {
            add_note(line, into, message, " none")
        }
    }
}

/// Adds a text, a member and the line's end.
fn add_member(
    line: &mut OutcomeLine,
    into: &mut Vec<u8>,
    front: &[u8],
    member: &Member,
) -> Result<(), AllocError>
    ensures added { OnOk result (into.new.items ≡ into.old.items ++ (front.now ++ member_text member.now ++ codes "\n")) }
    ensures unchanged { OnErr result (into.new.items ≡ into.old.items) }
{
    line.clear();
    line.put_word("\n");
    line.put_number(member.boot);
    append_member(into, front, member, line.as_slice())
}

/// Adds the line of a call that belongs to another member.
fn add_elsewhere(
    line: &mut OutcomeLine,
    into: &mut Vec<u8>,
    call: u64,
    version: u64,
    member: &Member,
) -> Result<(), AllocError>
    ensures added { OnOk result (into.new.items ≡ into.old.items ++ (codes "elsewhere " ++ decimal call ++ codes " " ++ decimal version ++ codes " " ++ member_text member.now ++ codes "\n")) }
    ensures unchanged { OnErr result (into.new.items ≡ into.old.items) }
{
    let mut front = OutcomeLine::new();
    front.put_word(" ");
    front.put_number(version);
    front.put_word(" ");
    front.put_number(call);
    front.put_word("elsewhere ");
    add_member(line, into, front.as_slice(), member)
}

/// Adds the line of a member that asks to be registered.
fn add_booted(
    line: &mut OutcomeLine,
    into: &mut Vec<u8>,
    member: &Member,
    message: u64,
) -> Result<(), AllocError>
    ensures added { OnOk result (into.new.items ≡ into.old.items ++ (codes "boot " ++ member_text member.now ++ codes " " ++ message_text message ++ codes "\n")) }
    ensures unchanged { OnErr result (into.new.items ≡ into.old.items) }
{
    write_number(line, " msg ", message);
    line.put_number(member.boot);
    append_member(into, b"boot ", member, line.as_slice())
}

/// Adds a word, a key and the rest of the line.
fn add_key(into: &mut Vec<u8>, word: &str, key: &ActorKey, rest: &[u8]) -> Result<(), AllocError>
    ensures added { OnOk result (into.new.items ≡ into.old.items ++ (word.now ++ key_text key.now ++ rest.now)) }
    ensures unchanged { OnErr result (into.new.items ≡ into.old.items) }
{
    append_pair(
        into,
        word.as_bytes(),
        key.kind.as_slice(),
        key.id.as_slice(),
        rest,
    )
}

/// Adds the line of an actor that is no longer active.
fn add_closed(
    line: &mut OutcomeLine,
    into: &mut Vec<u8>,
    key: &ActorKey,
    next: Option<u64>,
) -> Result<(), AllocError>
    ensures added { OnOk result (into.new.items ≡ into.old.items ++ outcome_text (closed key.now next)) }
    ensures unchanged { OnErr result (into.new.items ≡ into.old.items) }
{
    match next {
        None => add_key(into, "closed ", key, b"\n"),
        Some(next) => {
            write_number(line, " begin ", next);
            add_key(into, "closed ", key, line.as_slice())
        }
    }
}

/// Adds an outcome's line; `line` is scratch space for it.
pub(crate) fn add_outcome(
    line: &mut OutcomeLine,
    into: &mut Vec<u8>,
    outcome: &Outcome,
) -> Result<(), AllocError>
    ensures added { OnOk result (into.new.items ≡ into.old.items ++ outcome_text outcome.now) }
    ensures unchanged { OnErr result (into.new.items ≡ into.old.items) }
{
    match outcome {
        Outcome::Turn { outcome } => add_turn(line, into, outcome),
        Outcome::PartFull { call } => add_number(line, into, "part-full ", *call),
        Outcome::NoHost { call, version } => add_two(line, into, "no-host ", *call, " ", *version),
        Outcome::Elsewhere {
            call,
            version,
            member,
        } => add_elsewhere(line, into, *call, *version, member),
        Outcome::Behind { call, seen } => add_two(line, into, "behind ", *call, " ", *seen),
        Outcome::Stopped => add_word(into, "stopped\n"),
        Outcome::At { moment } => add_number(line, into, "at ", *moment),
        Outcome::Booted { member, message } => add_booted(line, into, member, *message),
        Outcome::BeatAdded { message } => add_note(line, into, *message, " beat"),
        Outcome::AckAdded {
            message,
            stage,
            version,
        } => add_ack(line, into, *message, *stage, *version),
        Outcome::LeaveAdded { message } => add_note(line, into, *message, " leave"),
        Outcome::NoAck => add_word(into, "no-ack\n"),
        Outcome::NotStopped => add_word(into, "not-stopped\n"),
        Outcome::Answered { message, reply } => add_answer(line, into, *message, reply),
        Outcome::Ignored => add_word(into, "ignored\n"),
        Outcome::Locked { version } => add_number(line, into, "locked ", *version),
        Outcome::Updated { version, drained } => add_updated(line, into, *version, *drained),
        Outcome::Opened {
            version,
            begun,
            moved,
        } => add_opened(line, into, *version, *begun, *moved),
        Outcome::NotDrained { version } => add_number(line, into, "not-drained ", *version),
        Outcome::TickEnded { turns } => add_number(line, into, "tick ended ", *turns),
        Outcome::Closing { key } => add_key(into, "closing ", key, b"\n"),
        Outcome::NoneClosing => add_word(into, "none-closing\n"),
        Outcome::Closed { key, next } => add_closed(line, into, key, *next),
        Outcome::NotClosing => add_word(into, "not-closing\n"),
        Outcome::Lost { member } => add_member(line, into, b"lost ", member),
        Outcome::NotMember { greatest } => add_number(line, into, "not-member ", *greatest),
        Outcome::Dropped { members } => add_number(line, into, "ptick dropped ", *members as u64),
        Outcome::Restarted { versions } => add_restart(line, into, versions.as_slice()),
    }
}

/// Appends an outcome's line with its line feed; if there is no memory for it, nothing.
pub fn outcome_line(outcome: &Outcome, into: &mut Vec<u8>) -> Result<(), AllocError>
    ensures added { OnOk result (into.new.items ≡ into.old.items ++ outcome_text outcome.now) }
    ensures unchanged { OnErr result (into.new.items ≡ into.old.items) }
{
    let mut line = OutcomeLine::new();
    add_outcome(&mut line, into, outcome)
}
