// The versions of the rounds that a restart starts.
ghost use Rattle.std.specs.Prelude.{◌≡◌};

use std::marker::Model;

/// A version for each room of a placement, in byte order of space: that of the round that starts there, 0 if none
/// starts.
#[derive(Drop)]
pub struct Versions {
    items: Vec<u64>,
}

impl Model for Versions {
    ghost use Rattle.std.specs.Prelude.{List, ℕ};

    ghost Value = { List ℕ };

    ghost view = { λ a. a.items.items };
}

impl Versions {
    /// The versions of a vector, in its order.
    pub fn from_vec(items: Vec<u64>) -> Versions
        ensures { result ≡ items.items }
    {
        Versions { items }
    }

    /// The versions.
    pub fn as_slice(&self) -> &[u64]
        ensures { result.now ≡ self.now }
    {
        self.items.as_slice()
    }
}
