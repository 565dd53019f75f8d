// What replies of parts, of books of timers and of the store come to.
ghost use Rattle.std.specs.Prelude.{◌≡◌};
ghost use Rattle.sidecar_requests.specs.Outcomes.{refused, refusal_of, done_answer, missing_answer, told_answer, store_answer, released_answer, held_answer, unasked_answer, book_answer, kept_answer, timer_answer};

use crate::ask::Wanted;
use actors_api::{ApiRefusal, ApiReply};
use exchanges::StoreEnd;
use frame_wire::StoreAnswer;
use part_core::PartReply;
use step_gate::Spent;
use timer_book::TimerReply;

// The answer that refuses a request.
pub(crate) fn refused(refusal: ApiRefusal) -> ApiReply
    ensures { result ≡ refused refusal }
{
    ApiReply::Refused { refusal }
}

// The refusal that the reply to a Hold, a Draw or a Lock is.
pub(crate) fn refusal_of(reply: PartReply) -> ApiRefusal
    ensures { result ≡ refusal_of reply }
{
    match reply {
        PartReply::NotActive => ApiRefusal::NotActive,
        PartReply::Spent { .. } => ApiRefusal::Spent,
        PartReply::Stopped => ApiRefusal::Stopped,
        _ => ApiRefusal::OutOfMemory,
    }
}

// The reply to a command that was carried out.
fn done_answer(wanted: Wanted) -> ApiReply
    ensures { result ≡ done_answer wanted }
{
    match wanted {
        Wanted::Transaction => ApiReply::TransactionMade,
        Wanted::PutReminder => ApiReply::ReminderPut,
        Wanted::DeleteReminder => ApiReply::ReminderDeleted,
        Wanted::State | Wanted::Reminder => refused(ApiRefusal::StoreReply),
    }
}

// The reply where there is no such entry.
fn missing_answer(wanted: Wanted) -> ApiReply
    ensures { result ≡ missing_answer wanted }
{
    match wanted {
        Wanted::State => ApiReply::NoState,
        Wanted::Reminder => refused(ApiRefusal::NoReminder),
        Wanted::Transaction | Wanted::PutReminder | Wanted::DeleteReminder => {
            refused(ApiRefusal::StoreReply)
        }
    }
}

// What an answer of the store comes to.
fn told_answer(wanted: Wanted, answer: StoreAnswer) -> ApiReply
    ensures { result ≡ told_answer wanted answer }
{
    match answer {
        StoreAnswer::Done { .. } => done_answer(wanted),
        StoreAnswer::Value { value } => ApiReply::StateIs { value },
        StoreAnswer::NotThere => missing_answer(wanted),
        StoreAnswer::ReminderIs {
            due,
            period,
            ttl,
            payload,
        } => ApiReply::ReminderIs {
            due,
            period,
            ttl,
            payload,
        },
        StoreAnswer::Refused { refusal } => refused(ApiRefusal::StoreRefused {
            code: refusal.code(),
        }),
        StoreAnswer::Booted { .. } => refused(ApiRefusal::StoreReply),
        StoreAnswer::DueList { .. } => refused(ApiRefusal::StoreReply),
        StoreAnswer::NextIs { .. } => refused(ApiRefusal::StoreReply),
    }
}

/// What an exchange with the store comes to.
pub(crate) fn store_answer(wanted: Wanted, got: Result<StoreAnswer, StoreEnd>) -> ApiReply
    ensures { result ≡ store_answer wanted got }
{
    match got {
        Ok(answer) => told_answer(wanted, answer),
        Err(StoreEnd::Fault) => refused(ApiRefusal::StoreFault),
        Err(StoreEnd::Unreadable) => refused(ApiRefusal::StoreReply),
        Err(StoreEnd::OutOfMemory) => refused(ApiRefusal::OutOfMemory),
    }
}

// The answer after the reply to a Release.
fn released_answer(reply: &PartReply, answer: ApiReply) -> ApiReply
    ensures { result ≡ released_answer reply.now answer }
{
    match reply {
        PartReply::Stopped => refused(ApiRefusal::Stopped),
        _ => answer,
    }
}

/// The answer after a hold and an exchange: a gate that took no entry goes first, then want of memory, then the reply to
/// the Release, then the store.
pub(crate) fn held_answer(
    wanted: Wanted,
    said: Result<PartReply, Spent>,
    got: Result<StoreAnswer, StoreEnd>,
) -> ApiReply
    ensures { result ≡ held_answer wanted said got }
{
    match said {
        Err(_) => refused(ApiRefusal::Spent),
        Ok(reply) => match got {
            Err(StoreEnd::OutOfMemory) => refused(ApiRefusal::OutOfMemory),
            other => released_answer(&reply, store_answer(wanted, other)),
        },
    }
}

/// The answer after a hold without an exchange: a gate that took no entry goes first, then what refused it.
pub(crate) fn unasked_answer(said: Result<PartReply, Spent>, refusal: ApiRefusal) -> ApiReply
    ensures { result ≡ unasked_answer said refusal }
{
    match said {
        Err(_) => refused(ApiRefusal::Spent),
        Ok(_) => refused(refusal),
    }
}

// What a reply of a book of timers comes to.
fn book_answer(reply: TimerReply) -> ApiReply
    ensures { result ≡ book_answer reply }
{
    match reply {
        TimerReply::WasSet { .. } => ApiReply::TimerSet,
        TimerReply::Deleted { .. } => ApiReply::TimerDeleted,
        TimerReply::Full => refused(ApiRefusal::TimersFull),
        TimerReply::Spent { .. } => refused(ApiRefusal::Spent),
        _ => refused(ApiRefusal::OutOfMemory),
    }
}

// The answer if both gates took their entries.
fn kept_answer(reply: &PartReply, got: TimerReply) -> ApiReply
    ensures { result ≡ kept_answer reply.now got }
{
    match got {
        TimerReply::OutOfMemory => refused(ApiRefusal::OutOfMemory),
        other => released_answer(reply, book_answer(other)),
    }
}

/// The answer after a hold and a call on a book: a gate that took no entry goes first, then want of memory, then the
/// reply to the Release, then the book.
pub(crate) fn timer_answer(
    said: Result<PartReply, Spent>,
    got: Result<TimerReply, Spent>,
) -> ApiReply
    ensures { result ≡ timer_answer said got }
{
    match said {
        Err(_) => refused(ApiRefusal::Spent),
        Ok(reply) => match got {
            Err(_) => refused(ApiRefusal::Spent),
            Ok(told) => kept_answer(&reply, told),
        },
    }
}
