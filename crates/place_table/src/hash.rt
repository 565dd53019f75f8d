// Places on the ring: the first 8 bytes of a text's SHA-256.
ghost use Rattle.std.specs.Prelude.{◌≡◌, ◌<◌, ◌≤◌, ◌%◌, take, length};
ghost use Rattle.std.specs.Int.{w64, from_be_bytes};
ghost use Rattle.place_table.specs.Hash.{place_of, number_text, point_text};
ghost use Rattle.place_table.specs.Hosts.{key_place};

use actor_names::{ActorId, Node};
use sha2::{Digest, Sha256};

// The first 8 bytes of a digest, as a big-endian number.
fn first_place(digest: &[u8; 32]) -> u64
    ensures { result ≡ from_be_bytes w64 (take 8 digest.now) }
{
    let d = digest;
    u64::from_be_bytes([d[0], d[1], d[2], d[3], d[4], d[5], d[6], d[7]])
}

/// The place on the ring of an actor with this id: the first 8 bytes of the id's SHA-256, as a big-endian number.
/// The type doesn't matter.
#[tactic(auto, unfolding(crate::specs::Hash::place_of))]
pub fn key_hash(id: &ActorId) -> u64
    ensures { result ≡ key_place id.now }
{
    let digest = Sha256::digest(id.as_slice());
    first_place(&digest)
}

/// The part of a host, from 0 to `parts - 1`, in which an actor with this id lives.
pub fn part_of(id: &ActorId, parts: u8) -> u8
    requires { 1 ≤ parts }
    ensures { result ≡ key_place id.now % parts }
{
    (key_hash(id) % parts as u64) as u8
}

// The place of point `i` of a node, hashed in pieces.
#[tactic(auto, unfolding(crate::specs::Hash::place_of))]
pub(crate) fn point_place(node: &Node, i: u8) -> u64
    requires { i < 100 }
    ensures { result ≡ place_of (point_text node.now i) }
{
    let mut hasher = Sha256::new();
    hasher.update(node.as_slice());
    if i < 10 {
        hasher.update(&[b'#', b'0' + i]);
    } else {
        hasher.update(&[b'#', b'0' + i / 10, b'0' + i % 10]);
    }
    let digest = hasher.finalize();
    first_place(&digest)
}
