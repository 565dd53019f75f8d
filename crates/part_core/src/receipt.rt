// Receipts: what a part reports about itself.
ghost use Rattle.std.specs.Prelude.{◌≡◌, ◌≤◌, ◌^◌};
ghost use Rattle.actor_names.specs.Same.{same_member};

use actor_names::Member;
use part_model::{Reply, SeenStage};
use std::marker::Model;

/// The state of a part after one of its steps. Only a step of a part makes one. A copy takes no memory.
#[derive(Clone, Copy)]
pub struct Receipt {
    member: Member,
    part: u8,
    version: u64,
    opened: u64,
    stage: SeenStage,
}

impl Model for Receipt {
    ghost use Rattle.std.specs.Prelude.{◌≤◌, ◌^◌};
    ghost use Rattle.part_model.specs.Receipts.{ReceiptState};

    ghost Value = { ReceiptState };

    ghost view = { λ a. record { member = a.member; part = a.part; version = a.version; opened = a.opened; stage = a.stage } };

    ghost invariant = { λ a. (a.version ≤ 2 ^ 62) × (a.opened ≤ 2 ^ 62) };

    ghost inverse = { λ r. record { member = r.member; part = r.part; version = r.version; opened = r.opened; stage = r.stage } };
}

impl Receipt {
    // The receipt with these facts.
    pub(crate) fn of(
        member: Member,
        part: u8,
        version: u64,
        opened: u64,
        stage: SeenStage,
    ) -> Receipt
        requires version { version ≤ 2 ^ 62 }
        requires opened { opened ≤ 2 ^ 62 }
        ensures { result ≡ record { member = member; part = part; version = version; opened = opened; stage = stage } }
    {
        Receipt {
            member,
            part,
            version,
            opened,
            stage,
        }
    }

    /// An equal receipt. Takes no memory.
    pub fn copy(&self) -> Receipt
        ensures { result ≡ self.now }
    {
        *self
    }

    /// The part's number among those of its member.
    pub fn part(&self) -> u8
        ensures { result ≡ self.now.part }
    {
        self.part
    }

    /// The greatest version that the part has seen, at most 2^62.
    pub fn version(&self) -> u64
        ensures value { result ≡ self.now.version }
        ensures within { result ≤ 2 ^ 62 }
    {
        self.version
    }

    /// The version at which the part opened last, at most 2^62; 0 before it first opened.
    pub fn opened(&self) -> u64
        ensures value { result ≡ self.now.opened }
        ensures within { result ≤ 2 ^ 62 }
    {
        self.opened
    }

    /// The part's stage.
    pub fn stage(&self) -> SeenStage
        ensures { result ≡ self.now.stage }
    {
        self.stage
    }

    /// Whether it is a receipt of this member's part.
    pub fn is_of(&self, member: &Member) -> bool
        ensures { result ≡ same_member self.now.member member.now }
    {
        self.member == *member
    }
}

/// What a part answers.
pub type PartReply = Reply<Receipt>;
