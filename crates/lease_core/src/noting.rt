// What the book keeps of an event that was done.
ghost use Rattle.std.specs.Prelude.{◌≡◌, ◌<◌, ◌++◌, ◌∷◌, [], length, nat_lt, if◌then◌else◌, vec_len, vec_capacity, OnOk};
ghost use Rattle.lease_core.specs.Book.{begun_by, with_begun, noted};
ghost use Rattle.lease_core.specs.Books.{book_of, HasRoom};

use crate::book::{Book, MemberClock, Sent};
use crate::lease::Lease;
use actor_names::{Member, OutOfMemory};
use world_events::WorldEvent;
use world_run::World;

/// Adds who booted, if anybody did.
fn add_begun(members: &mut Vec<MemberClock>, begun: Option<MemberClock>)
    requires { vec_len members.old < vec_capacity members.old }
    ensures { members.new.items ≡ with_begun members.old.items begun }
{
    let Some(begun) = begun else {
        return;
    };
    members.push(begun).unwrap();
}

/// Adds what is kept of a message, if there is one more message than before.
fn add_sent(kept: &mut Vec<Sent>, sent: Sent, messages: u64)
    requires { vec_len kept.old < vec_capacity kept.old }
    ensures { kept.new.items ≡ (if nat_lt (length kept.old.items) messages then kept.old.items ++ sent ∷ [] else kept.old.items) }
{
    if messages <= kept.len() as u64 {
        return;
    }
    kept.push(sent).unwrap();
}

/// Adds the boot of the member that a call asks, if there is one more call than before.
fn add_asker(askers: &mut Vec<u64>, boot: u64, calls: u64)
    requires { vec_len askers.old < vec_capacity askers.old }
    ensures { askers.new.items ≡ (if nat_lt (length askers.old.items) calls then askers.old.items ++ boot ∷ [] else askers.old.items) }
{
    if calls <= askers.len() as u64 {
        return;
    }
    askers.push(boot).unwrap();
}

impl Book {
    /// Makes room for one more member, message and call.
    pub(crate) fn reserve(&mut self) -> Result<(), OutOfMemory>
        ensures same { book_of self.new ≡ book_of self.old }
        ensures room { OnOk result (HasRoom self.new) }
    {
        self.members.reserve(1)?;
        self.sent.reserve(1)?;
        self.askers.reserve(1)?;
        Ok(())
    }

    /// Who boots at this event, with its clock and lease, which begin at 0.
    pub(crate) fn begun_by(&self, event: &WorldEvent) -> Option<MemberClock>
        ensures { result ≡ begun_by (book_of self.now) event.now }
    {
        match event {
            WorldEvent::Boot { space, node, .. } => Some(MemberClock {
                member: Member {
                    space: *space,
                    node: *node,
                    boot: self.members.len() as u64 + 1,
                },
                clock: 0,
                lease: Lease::new(0),
            }),
            _ => None,
        }
    }

    /// Notes an event that was done: who booted, the message that it added, which is of the request `sent`, and the call
    /// that it made at the member of this boot.
    pub(crate) fn note(&mut self, world: &World, begun: Option<MemberClock>, sent: Sent, boot: u64)
        requires { HasRoom self.old }
        ensures { book_of self.new ≡ noted (book_of self.old) begun sent boot (length world.now.messages) (length world.now.calls) }
    {
        add_begun(&mut self.members, begun);
        add_sent(&mut self.sent, sent, world.messages());
        add_asker(&mut self.askers, boot, world.calls());
    }
}
