// What is promised to a forwarded call, over all legal histories of a book.
ghost use Rattle.std.specs.Prelude.{◌≡◌, ◌≤◌, ℕ, true, false};
ghost use Rattle.actor_names.specs.declared.member.Member.{Member};
ghost use Rattle.call_book.specs.declared.event.BookEvent.TheVariants.{Begin};
ghost use Rattle.call_book.specs.declared.event.BookReply.{BookReply};
ghost use Rattle.call_book.specs.Replies.{IsAnswer};
ghost use Rattle.call_book.specs.Book.{CallBookState, is_kept};
ghost use Rattle.call_book.specs.Machine.{BookMoves};
ghost use Rattle.call_book.specs.Histories.{BookHistory, LeadsTo, times_new, response_of, repeat_reply, IsTooLate};

/// In every legal history of a book that began empty, `New` is answered at most once for each origin, part and number.
/// A call whose entry is kept was answered `New`. While its entry is kept, each later Begin of it is answered
/// `Running` before its Finish, and after it that Finish's response, or `Gone` with its status. Once its entry is gone, a
/// Begin of it is answered `TooOld` or `OldBoot`.
pub fn call_law()
    ensures once { (es : BookHistory) (book : CallBookState) (origin : Member) (part number : ℕ) → LeadsTo es book → times_new origin part number es ≤ 1 }
    ensures begun { (es : BookHistory) (book : CallBookState) (origin : Member) (part number : ℕ) → LeadsTo es book → is_kept book origin part number ≡ true → times_new origin part number es ≡ 1 }
    ensures kept { (es : BookHistory) (book next : CallBookState) (origin : Member) (part number : ℕ) (reply : BookReply) → LeadsTo es book → is_kept book origin part number ≡ true → BookMoves book (Begin origin part number) reply next → IsAnswer (repeat_reply (response_of origin part number es)) reply }
    ensures gone { (es : BookHistory) (book next : CallBookState) (origin : Member) (part number : ℕ) (reply : BookReply) → LeadsTo es book → times_new origin part number es ≡ 1 → is_kept book origin part number ≡ false → BookMoves book (Begin origin part number) reply next → IsTooLate reply }
{}
