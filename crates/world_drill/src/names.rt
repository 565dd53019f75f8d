// The names of a drill: nodes `n0` to `n3`, actors `counter/k0` to `counter/k7`, chains `c0` to `c3`.
ghost use Rattle.std.specs.Prelude.{◌≡◌, ◌<◌, ◌%◌, ◌/◌, ◌∷◌, ◌++◌, [], codes, decimal, IfOk, Some};
ghost use Rattle.actor_names.specs.Names.{default_space};
ghost use Rattle.world_drill.specs.Drill.{counter};

use actor_names::{
    ActorKey, ActorType, ChainId, Node, OutOfMemory, default_space, read_actor_id, read_actor_type,
    read_chain_id, read_node,
};
use std::alloc::Global;

/// A letter, and a digit after it.
#[tactic(auto, using(std::proofs::lemmas::Fmt::decimal_digit))]
fn marked(letter: u8, digit: u64) -> [u8; 2]
    requires { digit < 10 }
    ensures { result ≡ letter ∷ decimal digit }
{
    [letter, b'0' + digit as u8]
}

/// The node of a draw.
pub(crate) fn node_of(a: u64) -> Node
    ensures { result ≡ codes "n" ++ decimal (a % 4) }
{
    match read_node(&marked(b'n', a % 4)) {
        Ok(node) => node,
        Err(_) => unreachable!(),
    }
}

/// The type of all actors.
pub(crate) fn counter(alloc: Global) -> Result<ActorType, OutOfMemory>
    ensures { IfOk result (λ kind. kind ≡ counter) }
{
    match read_actor_type(alloc, b"counter") {
        Ok(kind) => Ok(kind),
        Err(_) => Err(OutOfMemory),
    }
}

/// The actor of a draw.
pub(crate) fn key_of(alloc: Global, b: u64) -> Result<ActorKey, OutOfMemory>
    ensures { IfOk result (λ key. key ≡ record { space = default_space; kind = counter; id = codes "k" ++ decimal (b % 8) }) }
{
    let kind = counter(alloc)?;
    match read_actor_id(alloc, &marked(b'k', b % 8)) {
        Ok(id) => Ok(ActorKey {
            space: default_space(),
            kind,
            id,
        }),
        Err(_) => Err(OutOfMemory),
    }
}

/// The chain of a draw.
pub(crate) fn chain_of(alloc: Global, b: u64) -> Result<ChainId, OutOfMemory>
    ensures { IfOk result (λ chain. chain ≡ codes "c" ++ decimal (b / 8 % 4)) }
{
    match read_chain_id(alloc, &marked(b'c', b / 8 % 4)) {
        Ok(chain) => Ok(chain),
        Err(_) => Err(OutOfMemory),
    }
}
