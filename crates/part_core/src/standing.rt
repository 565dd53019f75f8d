// What a part is apart from its actors.
ghost use Rattle.std.specs.Prelude.{◌≡◌, ◌≤◌, ◌^◌, true};
ghost use Rattle.part_core.specs.Actors.{ActorsState, IsForeignCounted, gives_some, state_of, total_foreign};
ghost use Rattle.part_model.specs.Part.{PartState, is_updated, seen_stage, receipt_of, ring_owner};

use crate::receipt::Receipt;
use crate::stage::is_updated;
use actor_names::Member;
use part_model::{SeenStage, Stage, TypeList};
use place_table::Table;

/// Whose part it is, its settings, its stage and its table.
#[derive(Drop)]
pub(crate) struct Standing {
    pub(crate) member: Member,
    pub(crate) number: u8,
    pub(crate) kinds: TypeList,
    pub(crate) stage: Stage,
    /// The greatest version seen, which is that of the stage.
    pub(crate) seen: u64,
    /// The version at which the part opened last, 0 before it first opened.
    pub(crate) opened: u64,
    pub(crate) table: Table,
    /// When the table was installed.
    pub(crate) since: u64,
    /// How many active actors belong to another owner, while the part is updated.
    pub(crate) foreign: usize,
}

/// Whether the part is updated and has active actors to give up to other owners.
pub(crate) fn gives_some(standing: &Standing) -> bool
    ensures { result ≡ gives_some standing.now }
{
    is_updated(&standing.stage) && standing.foreign > 0
}

/// The stage as a receipt gives it.
fn seen_stage(stage: &Stage, foreign: usize) -> SeenStage
    ensures { (p : PartState) → (is_updated stage.now ≡ true → foreign ≡ total_foreign ring_owner p p.cells) → result ≡ seen_stage ring_owner p stage.now }
{
    match stage {
        Stage::Locked => SeenStage::Locked,
        Stage::Open => SeenStage::Open,
        Stage::Stopped => SeenStage::Stopped,
        Stage::Updated => {
            if foreign == 0 {
                SeenStage::Drained
            } else {
                SeenStage::Draining
            }
        }
    }
}

impl Standing {
    /// The receipt of a part with this standing.
    pub(crate) fn receipt(&self) -> Receipt
        requires seen { self.now.seen ≤ 2 ^ 62 }
        requires opened { self.now.opened ≤ 2 ^ 62 }
        ensures { (a : ActorsState) → IsForeignCounted self.now a.cells → result ≡ receipt_of ring_owner (state_of self.now a) }
    {
        let stage = seen_stage(&self.stage, self.foreign);
        Receipt::of(self.member, self.number, self.seen, self.opened, stage)
    }
}
