// The sidecar's callers, and the ports at which they come.
ghost use Rattle.std.specs.Prelude.{None, refl};

use super::link::take_front;
use super::scenes;
use super::stage::Stage;
use actor_ports::{Conn, Listen, PortError, Sink, Source};
use std::sync::{Mutex, Wait};
use std::thread;

/// A caller, who sends one request.
#[derive(Drop)]
pub(crate) struct Caller<'a, R: Wait + Copy + Send> {
    rt: R,
    left: &'static [u8],
    // Where what it is written is kept.
    answer: Option<&'a Mutex<Vec<u8>>>,
}

impl<R: Wait + Copy + Send> Source for Caller<'_, R> {
    ghost remaining = { λ _. None };

    ghost read_faults = { λ _. 0 };

    fn read(&mut self, into: &mut Vec<u8>, most: usize) -> Result<usize, PortError> {
        take_front(&mut self.left, into, most)
    }
}

impl<R: Wait + Copy + Send> Sink for Caller<'_, R> {
    ghost contents = { λ _. None };

    ghost write_faults = { λ _. 0 };

    fn write(&mut self, bytes: &[u8]) -> Result<(), PortError> {
        let Some(answer) = self.answer else {
            return Ok(());
        };
        let mut kept = answer.lock(&self.rt);
        match kept.extend_from_slice(bytes) {
            Ok(()) => Ok(()),
            Err(_) => Err(PortError::OutOfMemory),
        }
    }
}

impl<R: Wait + Copy + Send> Conn for Caller<'_, R> {
    ghost one_count = { λ _. refl };

    ghost one_traffic = { λ _. refl };

    ghost left_told = { λ _. refl };
}

/// A port at which these callers come, and after them one who sends nothing, once the sidecar dials one of its ports.
#[derive(Drop)]
pub(crate) struct Port<'a, R: Wait + Copy + Send> {
    pub(crate) rt: R,
    pub(crate) stage: &'a Stage,
    pub(crate) first: Option<&'static [u8]>,
    pub(crate) second: Option<&'static [u8]>,
}

// Waits until a port of the sidecar is dialled.
fn wait_for_dial<R: Wait>(rt: &R, stage: &Stage) {
    for _ in rt.forever() {
        if stage.is_woken() {
            return;
        }
        thread::yield_now();
    }
}

impl<'a, R: Wait + Copy + Send> Listen for Port<'a, R> {
    type Link = Caller<'a, R>;

    ghost listen_faults = { λ _. 0 };

    fn accept(&mut self) -> Result<Caller<'a, R>, PortError> {
        let rt = self.rt;
        let stage = self.stage;
        if let Some(left) = self.first.take() {
            let answer = Some(&stage.first);
            return Ok(Caller { rt, left, answer });
        }
        if let Some(left) = self.second.take() {
            let answer = Some(&stage.second);
            return Ok(Caller { rt, left, answer });
        }
        wait_for_dial(&rt, stage);
        Ok(Caller {
            rt,
            left: scenes::NOTHING,
            answer: None,
        })
    }
}
