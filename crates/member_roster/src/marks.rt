// What is kept for a member besides its host.
ghost use Rattle.std.specs.Prelude.{◌≡◌, map, vec_capacity};
ghost use Rattle.member_roster.specs.Roster.{mark_weight, pending_count, entered_mark, targeted_mark, restarted_mark};

/// When a member was last heard, and its part in the running round.
#[derive(Clone, Copy)]
pub struct Mark {
    /// When it was last heard.
    pub heard: u64,
    /// Whether it is a target of the running round.
    pub target: bool,
    /// Whether it hasn't acknowledged the stage of the round.
    pub pending: bool,
}

/// What a mark adds to the count of pending members.
pub(crate) fn weigh_mark(mark: Mark) -> usize
    ensures { result ≡ mark_weight mark }
{
    if mark.pending { 1 } else { 0 }
}

/// How many marks are pending.
pub(crate) fn count_pending(marks: &[Mark]) -> usize
    ensures { result ≡ pending_count marks.now }
{
    let mut count = 0;
    for i in 0..marks.len() {
        count += weigh_mark(marks[i]);
    }
    count
}

/// Marks the targets as pending, and counts the pending marks.
pub(crate) fn enter_marks(marks: &mut Vec<Mark>) -> usize
    ensures items { marks.new.items ≡ map entered_mark marks.old.items }
    ensures capacity { vec_capacity marks.new ≡ vec_capacity marks.old }
    ensures count { result ≡ pending_count marks.new.items }
{
    for mark in marks.iter_mut() {
        mark.pending = mark.target;
    }
    count_pending(marks)
}

/// Marks each as a target, and as pending.
pub(crate) fn target_marks(marks: &mut Vec<Mark>)
    ensures items { marks.new.items ≡ map targeted_mark marks.old.items }
    ensures capacity { vec_capacity marks.new ≡ vec_capacity marks.old }
{
    for mark in marks.iter_mut() {
        mark.target = true;
        mark.pending = true;
    }
}

/// Marks each as heard now and in no round.
pub(crate) fn restart_marks(marks: &mut Vec<Mark>, now: u64)
    ensures items { marks.new.items ≡ map (restarted_mark now) marks.old.items }
    ensures capacity { vec_capacity marks.new ≡ vec_capacity marks.old }
{
    for mark in marks.iter_mut() {
        mark.heard = now;
        mark.target = false;
        mark.pending = false;
    }
}
