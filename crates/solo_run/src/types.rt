// The types that have reentrancy on, and their depths.
ghost use Rattle.std.specs.Prelude.{◌≡◌, ◌≤◌, ◌∷◌, ◌++◌, [], false, OnOk, OnErr};
ghost use Rattle.turn_core.specs.Cell.{greatest_depth};
ghost use Rattle.solo_run.specs.World.{depth_of, has_depth};

use crate::interner::Interner;
use actor_names::OutOfMemory;
use std::alloc::Global;
use std::marker::Model;

/// Depths by types, in the order of their settings.
#[derive(Drop)]
pub(crate) struct Types {
    kinds: Interner,
    depths: Vec<u32>,
}

impl Model for Types {
    ghost use Rattle.std.specs.Prelude.{List};
    ghost use Rattle.solo_run.specs.World.{TypeDepth};
    ghost use Rattle.solo_run.specs.TypesTold.{depths_told, AreDepthsKept};

    ghost Value = { List TypeDepth };

    ghost view = { λ a. depths_told a.kinds a.depths.items };

    ghost invariant = { λ a. AreDepthsKept a.kinds a.depths.items };
}

impl Types {
    /// No types.
    pub(crate) fn new(alloc: Global) -> Types
        ensures { result ≡ [] }
    {
        Types {
            kinds: Interner::new(alloc),
            depths: Vec::new(alloc),
        }
    }

    /// Whether a type has a depth.
    pub(crate) fn has(&self, kind: &[u8]) -> bool
        ensures { result ≡ has_depth kind.now self.now }
    {
        self.kinds.find(kind).is_some()
    }

    /// The depth of a type, 0 if it has none.
    pub(crate) fn depth_of(&self, kind: &[u8]) -> u32
        ensures depth { result ≡ depth_of kind.now self.now }
        ensures shallow { result ≤ greatest_depth }
    {
        match self.kinds.find(kind) {
            Some(at) => self.depths[at],
            None => 0,
        }
    }

    /// Gives a new type its depth, at most 1,024.
    pub(crate) fn add(&mut self, alloc: Global, kind: &[u8], depth: u32) -> Result<(), OutOfMemory>
        requires fresh { has_depth kind.now self.old ≡ false }
        requires shallow { depth ≤ greatest_depth }
        ensures added { OnOk result (self.new ≡ self.old ++ record { kind = kind.now; depth = depth } ∷ []) }
        ensures unchanged { OnErr result (self.new ≡ self.old) }
    {
        self.depths.reserve(1)?;
        self.kinds.add(alloc, kind)?;
        self.depths.push(depth).unwrap();
        Ok(())
    }
}
