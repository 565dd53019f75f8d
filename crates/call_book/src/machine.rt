// A book of forwarded calls as a machine.
use crate::book::CallBook;
use crate::event::{BookEvent, BookReply};
use state_machine::{Machine, News};

impl Machine for CallBook {
    ghost use Rattle.call_book.specs.Machine.{BookMoves};

    type Event = BookEvent;

    type Reply = BookReply;

    ghost takes = { λ _. Unit {0} };

    ghost moves = { BookMoves };

    fn step(&mut self, event: BookEvent) -> BookReply {
        CallBook::step(self, event)
    }

    // Nobody waits at a book: each event is answered at once.
    fn news(_reply: &BookReply) -> News {
        News::Nobody
    }
}
