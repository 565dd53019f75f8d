// A placement that is opened on a standby's file.
ghost use Rattle.promotion_law.specs.Openings.{PromotesOpening, RefusesOpening};
ghost use Rattle.promotion_law.specs.Promotions.{Promotes, RefusesPromotion};
ghost use Rattle.promotion_law.specs.UnderWay.{CallsAreWithin, PromotesWithin, RefusesWithin};

use placement_node::node_law;
use standby_session::image_law;

/// For a node that stands behind a run, perhaps with the step that met a fault, and whose only disk a standby covers, as
/// `image_law` of `standby_session` says of each call that was answered: a node that is opened on the standby's file, as it
/// reads or as a crash of the standby leaves it, is at the restart of that run or of the one with that step. `refused`: such
/// an opening is refused only by the disk, for want of memory, or if the record of the restart has no room.
///
/// `under_way` says it of each moment of a step: wherever its calls are cut off, behind one that was answered or in the
/// next, of which the standby made nothing, some pieces or all, or at which its disk failed, the file opens as the restart
/// of the run before the step or with it. `calls`: a standby that covered the disk before the step has such a file. A node
/// that has met a fault makes no further call, so its standby's file stays as that step left it. `opening` says the same of
/// the opening by which the placement came up over its mirror, on a file with a run's records.
pub fn promotion_law()
    ensures opens { Promotes }
    ensures refused { RefusesPromotion }
    ensures calls { CallsAreWithin }
    ensures under_way { PromotesWithin }
    ensures refused_under_way { RefusesWithin }
    ensures opening { PromotesOpening }
    ensures refused_opening { RefusesOpening }
{
    image_law();
    node_law();
}
