// The length of a frame between a member and the placement.
ghost use Rattle.std.specs.Prelude.{◌≤◌, length};
ghost use Rattle.frame_wire.specs.declared.frame.Frame.{Frame};
ghost use Rattle.frame_wire.specs.Frames.{payload, IsFrame};
ghost use Rattle.frame_lengths.specs.Lengths.{IsOfPlacement, most_bytes};

/// A frame between a member and the placement whose fields have their forms and ranges may be sent: with all that they can
/// hold it is shorter than a frame may be. The longest is an Update of 256 hosts, each with 32 types.
pub fn length_law()
    ensures short { (f : Frame) → IsOfPlacement f → payload.Fits f → length (payload.spell f) ≤ most_bytes }
    ensures sent { (f : Frame) → IsOfPlacement f → payload.Fits f → IsFrame f }
{}
