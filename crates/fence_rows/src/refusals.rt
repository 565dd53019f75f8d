// The refusals of a transaction of an epoch, in their order.
ghost use Rattle.std.specs.Prelude.{◌≡◌, ◌≤◌, false, length, IfSome};
ghost use Rattle.fence_rows.specs.Fences.{tx_answer, FencedAnswerFits};

use crate::event::FencedAnswer;
use crate::operations::reserved_op;
use frame_wire::{StoreAnswer, StoreRefusal};
use state_rows::StateOp;

// The most operations of a fenced transaction; its own is one more.
const MOST_OPS: usize = 999;

/// A refusal with the store's words.
pub(crate) fn refused(refusal: StoreRefusal) -> FencedAnswer
    ensures { result ≡ FencedAnswer.Answer (StoreAnswer.Refused refusal) }
{
    FencedAnswer::Answer {
        answer: StoreAnswer::Refused { refusal },
    }
}

/// What a transaction of an epoch is answered in place of a store that has met no fault, where its actor has the epoch
/// `seen`; `None` if it is the store's.
pub(crate) fn tx_refusal(epoch: u64, seen: u64, ops: &[StateOp]) -> Option<FencedAnswer>
    requires { length ops.now ≤ 65535 }
    ensures answer { result ≡ tx_answer epoch ops.now false seen }
    ensures fits { IfSome result FencedAnswerFits }
{
    if epoch < seen {
        return Some(FencedAnswer::StaleEpoch { seen });
    }
    if let Some(op) = reserved_op(ops) {
        return Some(FencedAnswer::ReservedKey { op });
    }
    let n = ops.len();
    if n > MOST_OPS {
        return Some(refused(StoreRefusal::TooManyOps { n: n as u64 }));
    }
    None
}
