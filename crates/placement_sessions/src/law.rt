// What the node answers to what a session gives it.
ghost use Rattle.placement_sessions.specs.Laws.{AnswersFrame, AnswersLook};

/// Each reply to a frame that is sent to the placement is a frame. A Look is answered with all rooms as they are, or with
/// want of memory, or the node must be opened again.
pub fn placement_law()
    ensures frames { AnswersFrame }
    ensures looks { AnswersLook }
{}
