// A book of forwarded calls.
//
//     pairs CALLS     CALLS calls of one lane begin and finish, each with a body of 200 bytes
//     made CALLS      the same events are made, and no book gets them
//
// Of `pairs` the book has 4,096 calls first, so that each further one drops the first of them. The count is how many calls
// there were beyond these.
use actor_names::{Member, read_member};
use call_book::{BookEvent, BookReply, CallBook};
use http_edge::{Body, HttpFields, HttpResponse};
use std::alloc::Global;

const KEPT: u64 = 4_096;

const BODY: [u8; 200] = [b'7'; 200];

/// Does what `mode` says and answers the count; `None` if memory ran out, or if the words make no sense.
pub fn run(alloc: Global, mode: &str, calls: &str) -> Option<u64> {
    let calls = calls.parse::<u32>().ok()? as u64;
    let origin = read_member(b"n1/1").ok()?;
    match mode {
        "pairs" => pairs(alloc, &origin, calls),
        "made" => made(alloc, &origin, calls),
        _ => None,
    }
}

fn begin(origin: &Member, number: u64) -> BookEvent {
    BookEvent::Begin {
        origin: origin.copy(),
        part: 0,
        number,
    }
}

fn finish(alloc: Global, origin: &Member, number: u64) -> Option<BookEvent> {
    let response = HttpResponse {
        status: 200,
        fields: HttpFields::from_vec(Vec::new(alloc)),
        body: Body::from_slice(alloc, &BODY).ok()?,
    };
    Some(BookEvent::Finish {
        origin: origin.copy(),
        part: 0,
        number,
        response,
    })
}

/// Begins the call and finishes it.
fn serve(alloc: Global, book: &mut CallBook, origin: &Member, number: u64) -> Option<()> {
    let begun = book.step(begin(origin, number));
    let finished = book.step(finish(alloc, origin, number)?);
    match (begun, finished) {
        (BookReply::New, BookReply::Finished) => Some(()),
        _ => None,
    }
}

fn pairs(alloc: Global, origin: &Member, calls: u64) -> Option<u64> {
    let mut book = CallBook::new(alloc);
    for number in 0..KEPT {
        serve(alloc, &mut book, origin, number.saturating_add(1))?;
    }
    for call in 0..calls {
        serve(alloc, &mut book, origin, call.saturating_add(KEPT + 1))?;
    }
    Some(calls)
}

fn made(alloc: Global, origin: &Member, calls: u64) -> Option<u64> {
    for call in 0..calls {
        let _begin = begin(origin, call);
        let _finish = finish(alloc, origin, call)?;
    }
    Some(calls)
}
