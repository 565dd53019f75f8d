// The owners that tables give, over all lists of hosts.
ghost use Rattle.std.specs.Prelude.{◌≡◌, ◌≢◌, ◌↔◌, ◌⊎◌, ◌∷◌, ◌++◌, ℕ, List, [], Some, None, true, false, Contains, IsPermutation};
ghost use Rattle.std.specs.List.{list_any};
ghost use Rattle.actor_names.specs.declared.actor_key.ActorKey.{ActorKey};
ghost use Rattle.place_table.specs.declared.host.HostInfo.{HostInfo};
ghost use Rattle.place_table.specs.Hosts.{node_of, serves, given_owner};

/// What every table does, whatever its space and its hosts; a table gives an actor to the host of the node that is named
/// here (`Table::owner`). `among`: the owner is one of the hosts, and serves the actor's type. `nobody`: there is none
/// exactly if the actor is of another space or no host serves its type. `order`: the order of the hosts plays no part.
/// `more`: if one host more changes the owner, then that host is the owner.
pub fn owner_law()
    ensures among { (space : List ℕ) (hosts : List HostInfo) (key : ActorKey) (node : List ℕ) → given_owner space hosts key ≡ Some node
        → (h : HostInfo) × Contains hosts h × (node_of h ≡ node) × (serves h key.kind ≡ true) }
    ensures nobody { (space : List ℕ) (hosts : List HostInfo) (key : ActorKey)
        → (given_owner space hosts key ≡ None) ↔ ((key.space ≢ space) ⊎ (list_any (λ h. serves h key.kind) hosts ≡ false)) }
    ensures order { (space : List ℕ) (xs ys : List HostInfo) (key : ActorKey) → IsPermutation xs ys → given_owner space xs key ≡ given_owner space ys key }
    ensures more { (space : List ℕ) (hosts : List HostInfo) (more : HostInfo) (key : ActorKey) → (given_owner space (hosts ++ more ∷ []) key ≢ given_owner space hosts key)
        → given_owner space (hosts ++ more ∷ []) key ≡ Some (node_of more) }
{}
