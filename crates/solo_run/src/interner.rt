// An interner of texts: each text once, in the order in which they were added, found through an index.
ghost use Rattle.std.specs.Prelude.{◌≡◌, ◌∷◌, ◌++◌, [], None, length, OnOk, OnErr};
ghost use Rattle.solo_run.specs.Interner.{place_in, AreDistinct};

use actor_names::OutOfMemory;
use indexmap::IndexSet;
use std::alloc::Global;
use std::marker::Model;

/// Distinct texts by their places.
#[derive(Drop)]
pub(crate) struct Interner {
    texts: IndexSet<Vec<u8>>,
}

impl Model for Interner {
    ghost use Rattle.std.specs.Prelude.{List, ℕ, map};

    ghost Value = { List (List ℕ) };

    ghost view = { λ a. map (λ text. text.items) a.texts.keys };
}

impl Interner {
    /// An empty interner.
    pub(crate) fn new(alloc: Global) -> Interner
        ensures { result ≡ [] }
    {
        Interner {
            texts: IndexSet::new(alloc),
        }
    }

    /// How many texts there are.
    pub(crate) fn len(&self) -> usize
        ensures count { result ≡ length self.now }
        ensures distinct { AreDistinct self.now }
    {
        self.texts.len()
    }

    /// The place of a text, from 0.
    pub(crate) fn find(&self, text: &[u8]) -> Option<usize>
        ensures { result ≡ place_in text.now self.now }
    {
        self.texts.get_index_of(text)
    }

    /// The same, if the text is likely to be at `near`.
    pub(crate) fn find_near(&self, text: &[u8], near: usize) -> Option<usize>
        ensures { result ≡ place_in text.now self.now }
    {
        let _count = self.len();
        match self.texts.get_index(near) {
            Some(found) if found.as_slice() == text => Some(near),
            _ => self.find(text),
        }
    }

    /// Adds a new text at the end.
    pub(crate) fn add(&mut self, alloc: Global, text: &[u8]) -> Result<(), OutOfMemory>
        requires { place_in text.now self.old ≡ None }
        ensures added { OnOk result (self.new ≡ self.old ++ text.now ∷ []) }
        ensures unchanged { OnErr result (self.new ≡ self.old) }
    {
        let copy = Vec::from_slice(alloc, text)?;
        self.texts.insert_full(copy)?;
        Ok(())
    }
}
