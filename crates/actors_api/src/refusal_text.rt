// The status, the code and the text of each refusal.
ghost use Rattle.std.specs.Prelude.{◌≡◌, ◌++◌, codes, decimal, IfOk, OnOk};
ghost use Rattle.std.specs.String.{string_bytes};
ghost use Rattle.actors_api.specs.Refusals.{refusal_row, name_word, schedule_word, spaced_numbers};

use crate::refusal::{ApiName, ApiRefusal};
use crate::text::{add, add_number, joined, numbered, text};
use lists_and_limits::OutOfMemory;
use schedule_text::ScheduleError;
use std::alloc::Global;

/// The status that answers a refusal.
pub(crate) fn status_of(refusal: &ApiRefusal) -> u16
    ensures { result ≡ (refusal_row refusal.now).status }
{
    match refusal {
        ApiRefusal::BadName { .. }
        | ApiRefusal::MalformedBody
        | ApiRefusal::OtherNumber
        | ApiRefusal::TooLarge { .. }
        | ApiRefusal::BadSchedule { .. }
        | ApiRefusal::MalformedHead
        | ApiRefusal::NotActive => 400,
        ApiRefusal::NoRoute | ApiRefusal::NoReminder => 404,
        ApiRefusal::WrongMethod => 405,
        ApiRefusal::BodyTooLong => 413,
        ApiRefusal::HeadTooLong => 431,
        ApiRefusal::Chunked => 501,
        ApiRefusal::OutOfMemory => 503,
        _ => 500,
    }
}

/// The code of a refusal, which programs may rely on.
pub(crate) fn code_of(refusal: &ApiRefusal) -> &'static str
    ensures { result.now ≡ (refusal_row refusal.now).code }
{
    match refusal {
        ApiRefusal::NoRoute => "ERR_NO_ROUTE",
        ApiRefusal::WrongMethod => "ERR_METHOD",
        ApiRefusal::BadName { .. } => "ERR_BAD_NAME",
        ApiRefusal::MalformedBody => "ERR_MALFORMED_BODY",
        ApiRefusal::OtherNumber => "ERR_FRACTION_NUMBER",
        ApiRefusal::TooLarge { .. } => "ERR_TOO_LARGE",
        ApiRefusal::BadSchedule { .. } => "ERR_SCHEDULE",
        ApiRefusal::OutOfMemory => "ERR_OUT_OF_MEMORY",
        ApiRefusal::MalformedHead => "ERR_MALFORMED_HEAD",
        ApiRefusal::HeadTooLong => "ERR_HEAD_TOO_LONG",
        ApiRefusal::Chunked => "ERR_CHUNKED",
        ApiRefusal::BodyTooLong => "ERR_BODY_TOO_LONG",
        ApiRefusal::NotActive => "ERR_ACTOR_INSTANCE_MISSING",
        ApiRefusal::TimersFull => "ERR_TIMERS_FULL",
        ApiRefusal::NoReminder => "ERR_REMINDER_NOT_FOUND",
        ApiRefusal::NoHost { .. } => "ERR_ACTOR_NO_HOST",
        ApiRefusal::Depth { .. } => "ERR_ACTOR_STACK_DEPTH",
        ApiRefusal::QueueFull => "ERR_ACTOR_QUEUE_FULL",
        ApiRefusal::PartFull => "ERR_PART_FULL",
        ApiRefusal::Aborted => "ERR_ACTOR_ABORTED",
        ApiRefusal::Stopped => "ERR_SIDECAR_STOPPED",
        ApiRefusal::Moved { .. } => "ERR_ACTOR_MOVED",
        ApiRefusal::NotRising { .. } => "ERR_PEER_VERSION",
        ApiRefusal::Behind { .. } => "ERR_PEER_BEHIND",
        ApiRefusal::AppFault => "ERR_APP_FAULT",
        ApiRefusal::PeerFault => "ERR_PEER_FAULT",
        ApiRefusal::StoreFault => "ERR_STORE_FAULT",
        ApiRefusal::AppReply => "ERR_APP_REPLY",
        ApiRefusal::PeerReply => "ERR_PEER_REPLY",
        ApiRefusal::StoreReply => "ERR_STORE_REPLY",
        ApiRefusal::StoreRefused { .. } => "ERR_STORE_REFUSED",
        ApiRefusal::CallRunning => "ERR_CALL_RUNNING",
        ApiRefusal::AnswerGone { .. } => "ERR_ANSWER_GONE",
        ApiRefusal::CallOld { .. } => "ERR_CALL_OLD",
        ApiRefusal::CallBoot { .. } => "ERR_CALL_BOOT",
        ApiRefusal::CallLanes => "ERR_CALL_LANES",
        ApiRefusal::BookFull => "ERR_BOOK_FULL",
        ApiRefusal::Spent => "ERR_SPENT",
    }
}

fn name_word(name: ApiName) -> &'static str
    ensures { result.now ≡ name_word name }
{
    match name {
        ApiName::Type => "type",
        ApiName::Id => "id",
        ApiName::Method => "method",
        ApiName::Key => "key",
        ApiName::Name => "name",
        ApiName::Chain => "chain",
        ApiName::Least => "least",
        ApiName::Call => "call",
    }
}

// Appends a word and a place.
fn add_placed(into: &mut String, word: &str, at: u64) -> Result<(), OutOfMemory>
    ensures { OnOk result (string_bytes into.new ≡ string_bytes into.old ++ (word.now ++ decimal at)) }
{
    add(into, word)?;
    add_number(into, at)
}

fn add_schedule_word(into: &mut String, fault: ScheduleError) -> Result<(), OutOfMemory>
    ensures { OnOk result (string_bytes into.new ≡ string_bytes into.old ++ schedule_word fault) }
{
    match fault {
        ScheduleError::BadMoment { at } => add_placed(into, "bad-moment ", at),
        ScheduleError::BadDuration { at } => add_placed(into, "bad-duration ", at),
        ScheduleError::Negative => add(into, "negative"),
        ScheduleError::ZeroRepeats => add(into, "zero-repeats"),
        ScheduleError::OutOfRange => add(into, "out-of-range"),
        ScheduleError::OutOfMemory => add(into, "out-of-memory"),
    }
}

fn schedule_text(alloc: Global, fault: ScheduleError) -> Result<String, OutOfMemory>
    ensures { IfOk result (λ made. string_bytes made ≡ codes "refused " ++ schedule_word fault) }
{
    let mut made = text(alloc, "refused ")?;
    add_schedule_word(&mut made, fault)?;
    Ok(made)
}

fn depth_text(alloc: Global, turns: u64) -> Result<String, OutOfMemory>
    ensures { IfOk result (λ made. string_bytes made ≡ decimal turns ++ codes " turns are open") }
{
    let mut made = numbered(alloc, "", turns)?;
    add(&mut made, " turns are open")?;
    Ok(made)
}

fn add_numbers(into: &mut String, numbers: &[u64]) -> Result<(), OutOfMemory>
    ensures { OnOk result (string_bytes into.new ≡ string_bytes into.old ++ spaced_numbers numbers.now) }
{
    for number in numbers {
        add(into, " ")?;
        add_number(into, *number)?;
    }
    Ok(())
}

fn moved_text(alloc: Global, versions: &[u64]) -> Result<String, OutOfMemory>
    ensures { IfOk result (λ made. string_bytes made ≡ codes "moved at" ++ spaced_numbers versions.now) }
{
    let mut made = text(alloc, "moved at")?;
    add_numbers(&mut made, versions)?;
    Ok(made)
}

fn rising_text(alloc: Global, last: u64, version: u64) -> Result<String, OutOfMemory>
    ensures { IfOk result (λ made. string_bytes made
        ≡ codes "version " ++ decimal version ++ codes " after " ++ decimal last) }
{
    let mut made = numbered(alloc, "version ", version)?;
    add(&mut made, " after ")?;
    add_number(&mut made, last)?;
    Ok(made)
}

/// The text of a refusal, for people.
pub(crate) fn text_of(alloc: Global, refusal: &ApiRefusal) -> Result<String, OutOfMemory>
    ensures { IfOk result (λ made. string_bytes made ≡ (refusal_row refusal.now).text) }
{
    match refusal {
        ApiRefusal::NoRoute => text(alloc, "no such route"),
        ApiRefusal::WrongMethod => text(alloc, "method not allowed here"),
        ApiRefusal::BadName { name } => joined(alloc, "bad ", name_word(*name)),
        ApiRefusal::MalformedBody => text(alloc, "malformed body"),
        ApiRefusal::OtherNumber => text(alloc, "number is not a 64-bit integer"),
        ApiRefusal::TooLarge { index } => numbered(alloc, "operation ", *index),
        ApiRefusal::BadSchedule { fault } => schedule_text(alloc, *fault),
        ApiRefusal::OutOfMemory => text(alloc, "out of memory"),
        ApiRefusal::MalformedHead => text(alloc, "malformed head"),
        ApiRefusal::HeadTooLong => text(alloc, "head above 16384 bytes"),
        ApiRefusal::Chunked => text(alloc, "chunked bodies are not served"),
        ApiRefusal::BodyTooLong => text(alloc, "body above 4194304 bytes"),
        ApiRefusal::NotActive => text(alloc, "actor is not active here"),
        ApiRefusal::TimersFull => text(alloc, "actor has 1024 timers"),
        ApiRefusal::NoReminder => text(alloc, "no such reminder"),
        ApiRefusal::NoHost { version } => numbered(alloc, "no host in version ", *version),
        ApiRefusal::Depth { turns } => depth_text(alloc, *turns),
        ApiRefusal::QueueFull => text(alloc, "1024 calls wait"),
        ApiRefusal::PartFull => text(alloc, "65536 actors"),
        ApiRefusal::Aborted => text(alloc, "turn was ended"),
        ApiRefusal::Stopped => text(alloc, "sidecar stopped"),
        ApiRefusal::Moved { versions } => moved_text(alloc, versions),
        ApiRefusal::NotRising { last, version } => rising_text(alloc, *last, *version),
        ApiRefusal::Behind { seen } => numbered(alloc, "seen ", *seen),
        ApiRefusal::AppFault | ApiRefusal::PeerFault | ApiRefusal::StoreFault => {
            text(alloc, "link failed")
        }
        ApiRefusal::AppReply | ApiRefusal::PeerReply | ApiRefusal::StoreReply => {
            text(alloc, "unreadable reply")
        }
        ApiRefusal::StoreRefused { code } => numbered(alloc, "store code ", *code as u64),
        ApiRefusal::CallRunning => text(alloc, "call is running"),
        ApiRefusal::AnswerGone { status } => numbered(alloc, "answered ", *status as u64),
        ApiRefusal::CallOld { floor } => numbered(alloc, "floor ", *floor),
        ApiRefusal::CallBoot { boot } => numbered(alloc, "boot ", *boot),
        ApiRefusal::CallLanes => text(alloc, "4096 lanes"),
        ApiRefusal::BookFull => text(alloc, "4096 calls run"),
        ApiRefusal::Spent => text(alloc, "counter spent"),
    }
}
