// The requests that ask for a room.
ghost use Rattle.std.specs.Prelude.{◌≡◌};
ghost use Rattle.placement_sessions.specs.Routes.{asked_at, room_asked, space_at, space_named};

use actor_names::{Space, default_space, read_space};
use http_edge::HttpRequest;

/// What a request asks for.
#[derive(Clone, Copy)]
pub enum Asked {
    /// The members and the version of a space's room.
    State { space: Space },
    /// Its round, and whom that waits for.
    Rounds { space: Space },
}

// The space with this name, if it is one.
fn space_named(name: &[u8]) -> Option<Space>
    ensures { result ≡ space_named name.now }
{
    read_space(name).ok()
}

// The space whose room a target names, by this path or by the path with the query.
fn space_at(path: &[u8], query: &[u8], target: &[u8]) -> Option<Space>
    ensures { result ≡ space_at path.now query.now target.now }
{
    if target == path {
        return Some(default_space());
    }
    match target.strip_prefix(query) {
        Some(name) => space_named(name),
        None => None,
    }
}

// What a target names.
fn asked_at(target: &[u8]) -> Option<Asked>
    ensures { result ≡ asked_at target.now }
{
    if let Some(space) = space_at(b"/placement/state", b"/placement/state?space=", target) {
        return Some(Asked::State { space });
    }
    match space_at(b"/placement/rounds", b"/placement/rounds?space=", target) {
        Some(space) => Some(Asked::Rounds { space }),
        None => None,
    }
}

/// What a request asks for of a space's room, of that of `default` if it names none. `None` if the request asks for
/// something else. Takes no memory.
pub fn room_asked(request: &HttpRequest) -> Option<Asked>
    ensures { result ≡ room_asked request.now }
{
    if request.method.as_slice() == b"GET".as_slice() {
        asked_at(request.target.as_slice())
    } else {
        None
    }
}
