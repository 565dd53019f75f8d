// The ids of actors that were asked for, each with its hash, which costs as much as the rest of a call.
ghost use Rattle.std.specs.Prelude.{◌≡◌, ◌<◌, ◌%◌, IfSome};
ghost use Rattle.place_table.specs.Hosts.{key_place};

use actor_names::ActorId;
use place_table::key_hash;
use std::alloc::Global;
use std::collections::HashMap;
use std::marker::Model;

/// An id with its `key_hash`. Contracts see the id alone.
#[derive(Drop)]
struct HashedId {
    id: ActorId,
    hash: u64,
}

impl Model for HashedId {
    ghost use Rattle.std.specs.Prelude.{◌≡◌, List, ℕ};
    ghost use Rattle.place_table.specs.Hosts.{key_place};

    ghost Value = { List ℕ };

    ghost view = { λ a. a.id };

    ghost invariant = { λ a. a.hash ≡ key_place a.id };
}

/// Ids by their bytes, each with its hash, for `Parts::key_place_of`. An id for which there was no memory isn't there, and
/// is hashed again.
#[derive(Drop)]
pub struct KnownIds {
    alloc: Global,
    ids: HashMap<Vec<u8>, HashedId>,
}

impl KnownIds {
    /// No id; takes no memory.
    pub fn new(alloc: Global) -> KnownIds {
        KnownIds {
            alloc,
            ids: HashMap::new(alloc),
        }
    }

    /// The hash of an id that is there.
    fn found(&self, id: &ActorId) -> Option<u64>
        ensures { IfSome result (λ hash. hash ≡ key_place id.now) }
    {
        match self.ids.get(id.as_slice()) {
            None => None,
            Some(known) => {
                if known.id == *id {
                    Some(known.hash)
                } else {
                    None
                }
            }
        }
    }

    /// Keeps the hash of an id, if there is memory for it.
    fn keep(&mut self, id: &ActorId, hash: u64)
        requires { hash ≡ key_place id.now }
    {
        let Ok(copy) = id.copy(self.alloc) else {
            return;
        };
        let Ok(bytes) = Vec::from_slice(self.alloc, id.as_slice()) else {
            return;
        };
        let _before = self.ids.insert(bytes, HashedId { id: copy, hash });
    }

    /// The part of a host with so many parts in which an actor with this id lives.
    pub(crate) fn part_of(&mut self, id: &ActorId, parts: u8) -> u8
        requires { 0 < parts }
        ensures { result ≡ key_place id.now % parts }
    {
        let hash = match self.found(id) {
            Some(hash) => hash,
            None => {
                let hash = key_hash(id);
                self.keep(id, hash);
                hash
            }
        };
        (hash % parts as u64) as u8
    }
}
