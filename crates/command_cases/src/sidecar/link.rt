// What the sidecar dials: its application, the placement, the store, and its own ports.
ghost use Rattle.std.specs.Prelude.{◌≤◌, None, IfOk, refl};
ghost use Rattle.actor_ports.specs.Port.{HasCause, Appends};

use super::scenes;
use super::stage::Stage;
use actor_ports::{Conn, Dial, PortError, Sink, Source};

/// Where a link leads.
#[derive(Clone, Copy, PartialEq, Eq)]
enum Role {
    App,
    Placement,
    Store,
    OwnPort,
}

/// A link, whose other end answers what it is written.
#[derive(Drop)]
pub(crate) struct Link<'a> {
    stage: &'a Stage,
    role: Role,
    // The call that the application hasn't answered.
    call: Option<u64>,
    // What is left of the answer.
    left: &'static [u8],
}

/// Appends the next bytes of an answer, and takes them away.
pub(crate) fn take_front<'b>(
    left: &mut &'b [u8],
    into: &mut Vec<u8>,
    most: usize,
) -> Result<usize, PortError>
    ensures most { IfOk result (λ n. n ≤ most) }
    ensures appends { Appends into.old.items into.new.items result }
    ensures cause { HasCause 0 0 result }
{
    let count = most.min(left.len());
    let (front, rest) = left.split_at(count);
    if into.extend_from_slice(front).is_err() {
        return Err(PortError::OutOfMemory);
    }
    *left = rest;
    Ok(count)
}

impl Link<'_> {
    // What the application answers to a request; a call is answered when the answer is read.
    fn hear_app(&mut self, request: &[u8]) {
        match request.first() {
            Some(&b'G') => self.left = scenes::CONFIG,
            Some(&b'P') => self.call = Some(self.stage.call()),
            _ => self.left = scenes::INACTIVE,
        }
    }

    // What the store answers to a command.
    fn hear_store(&mut self, frame: &[u8]) {
        if frame.get(scenes::KIND_AT) == Some(&scenes::DUE) {
            self.left = scenes::NONE_DUE;
        } else {
            self.left = scenes::BOOTED;
        }
    }
}

impl Source for Link<'_> {
    ghost remaining = { λ _. None };

    ghost read_faults = { λ _. 0 };

    fn read(&mut self, into: &mut Vec<u8>, most: usize) -> Result<usize, PortError> {
        if let Some(call) = self.call.take() {
            self.left = self.stage.answer(call);
        }
        take_front(&mut self.left, into, most)
    }
}

impl Sink for Link<'_> {
    ghost contents = { λ _. None };

    ghost write_faults = { λ _. 0 };

    fn write(&mut self, bytes: &[u8]) -> Result<(), PortError> {
        match self.role {
            Role::App => self.hear_app(bytes),
            Role::Placement => self.left = self.stage.place(bytes),
            Role::Store => self.hear_store(bytes),
            Role::OwnPort => {}
        }
        Ok(())
    }
}

impl Conn for Link<'_> {
    ghost one_count = { λ _. refl };

    ghost one_traffic = { λ _. refl };

    ghost left_told = { λ _. refl };
}

/// A dialler to all of them. It never fails.
#[derive(Drop)]
pub(crate) struct Dialler<'a> {
    pub(crate) stage: &'a Stage,
    pub(crate) room: u64,
}

// Where a port leads.
fn role_of(port: u16) -> Role {
    match port {
        3000 => Role::App,
        3600 => Role::Placement,
        3700 => Role::Store,
        _ => Role::OwnPort,
    }
}

impl<'a> Dial for Dialler<'a> {
    type Link = Link<'a>;

    ghost dial_faults = { λ _. 0 };

    ghost dialled = { λ _. None };

    ghost room = { λ d. d.room };

    fn dial(&mut self, _ip: u32, port: u16) -> Result<Link<'a>, PortError> {
        if self.room == u64::MAX {
            return Err(PortError::OutOfMemory);
        }
        self.room += 1;
        let role = role_of(port);
        if role == Role::OwnPort {
            self.stage.wake();
        }
        Ok(Link {
            stage: self.stage,
            role,
            call: None,
            left: scenes::NOTHING,
        })
    }

    fn done(&mut self, _link: Link<'a>) {
        self.room -= 1;
    }

    fn another(&self) -> Result<Dialler<'a>, PortError> {
        Ok(Dialler {
            stage: self.stage,
            room: 0,
        })
    }
}
