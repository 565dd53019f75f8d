// What a world shows of its members, messages and calls, without memory.
ghost use Rattle.std.specs.Prelude.{◌≡◌, ◌*◌, suc, length, slice_get};
ghost use Rattle.cluster_parts.specs.Views.{member_in};
ghost use Rattle.world_run.specs.Looks.{asks_at};

use crate::world::World;
use actor_names::Member;

impl World {
    /// The member of this number, counted from 0 in order of boot, if that many nodes have started.
    pub fn member(&self, n: u64) -> Option<Member>
        ensures { result ≡ member_in (slice_get self.now.parts (n * self.now.settings.parts)) }
    {
        self.cluster.member(n)
    }

    /// Whether the message of this number is a request, if there is one; messages are numbered from 1.
    pub fn asks(&self, message: u64) -> Option<bool>
        ensures { result ≡ asks_at self.now.messages message }
    {
        self.cluster.post.asks(message)
    }

    /// How many events were done; those that were refused don't count.
    pub fn events(&self) -> u64
        ensures { result ≡ self.now.events }
    {
        self.cluster.events()
    }

    /// The number of the next call, one more than the calls so far.
    pub fn next_call(&self) -> u64
        ensures { result ≡ suc (length self.now.calls) }
    {
        self.cluster.calls.next_call()
    }
}
