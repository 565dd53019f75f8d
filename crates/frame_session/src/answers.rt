// How a machine is asked by frames.
ghost use Rattle.std.specs.Prelude.{◌≡◌, ◌<◌, ℕ, Bool, Option, Some, IfSome};
ghost use Rattle.frame_wire.specs.declared.frame.Frame.{Frame};
ghost use Rattle.frame_wire.specs.Frames.{payload, IsFrame};
ghost use Rattle.frame_session.specs.Rounds.{IsReply};

use crate::asked::Askable;
use frame_wire::Frame;

/// How frames are events of a machine, and how its replies are frames.
pub trait AnswersFrames<G: Askable> {
    /// The event of a frame that comes at a moment, in milliseconds since 1970; `None` if such a frame isn't sent to
    /// this machine.
    ghost event_of: { Frame → ℕ → Option G.Event };

    /// The frame of a reply; `None` only if no frame asks for such a reply.
    ghost answer_of: { G.Reply → Option Frame };

    /// Whether a session ends after this reply: the machine has lost its disk.
    ghost breaks_off: { G.Reply → Bool };

    /// Makes the event of a frame. It takes no memory.
    fn event(frame: Frame, now: u64) -> Option<G::Event>
        requires sent { IsFrame frame }
        requires early { now < 253370764800000 }
        ensures event { result ≡ event_of frame now }
        ensures takes { IfSome result (λ e. G.takes e) };

    /// Makes the frame of a reply to a frame's event. Its fields have their forms and ranges. It takes no memory.
    fn answer(reply: G::Reply) -> Frame
        requires { IsReply G.may_reply event_of reply }
        ensures is { answer_of reply ≡ Some result }
        ensures fits { payload.Fits result };

    /// Whether a session ends after this reply.
    fn breaks(reply: &G::Reply) -> bool
        ensures { result ≡ breaks_off reply.now };
}
