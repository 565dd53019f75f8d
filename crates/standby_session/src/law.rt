// What a standby keeps of the calls of a mirror.
ghost use Rattle.std.specs.Prelude.{◌≤◌, length};
ghost use Rattle.standby_session.specs.Images.{AttachCovers, AnsweredCovers, UnderWayCovers};
ghost use Rattle.standby_session.specs.Standbys.{commands_of, AreShort, KeepsAnswered};

use frame_wire::frame_law;
use standby_core::MirrorCall;

/// If the first `answered` of these calls were answered to a mirror, and its standby's session met no fault, the standby's
/// disk reads as the mirror's did after these calls, or after these and the next. It makes no step.
pub fn standby_law(calls: &[MirrorCall], answered: u64)
    requires many { answered ≤ length calls.now }
    requires short { AreShort calls.now }
    ensures { KeepsAnswered (commands_of calls.now) answered }
{
    frame_law();
}

/// What a crash may leave of a standby's disk, and what it reads as, a crash of the placement's own disk might have left:
/// behind an attach, behind each call that was answered, and before or behind the one under way. So whatever is promised of
/// each crash of that disk holds of the standby's file. It makes no step.
pub fn image_law()
    ensures attach { AttachCovers }
    ensures answered { AnsweredCovers }
    ensures under_way { UnderWayCovers }
{}
