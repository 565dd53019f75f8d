// The end of a server, and what each server does by the clock.
use crate::duty::{Duty, SHORT_PAUSE_MS};
use actor_names::Address;
use actor_ports::{Clock, Dial};
use std::sync::atomic::{AtomicBool, Ordering};

/// Whether a server is over, and where its loops wait for connections: at one address, or at two.
#[derive(Drop)]
pub struct Ending {
    at: Address,
    beside: Option<Address>,
    is_over: AtomicBool,
}

// Makes a connection to an address and gives it back, so that a loop that waits there goes on.
fn knock<N: Dial>(net: &mut N, at: Address) {
    if let Ok(link) = net.dial(at.ip, at.port) {
        net.done(link);
    }
}

impl Ending {
    /// A server that isn't over, with the addresses at which it listens.
    pub fn new(at: Address, beside: Option<Address>) -> Ending {
        Ending {
            at,
            beside,
            is_over: AtomicBool::new(false),
        }
    }

    /// Whether it is over.
    pub fn is_over(&self) -> bool {
        self.is_over.load(Ordering::SeqCst)
    }

    /// Says that it is over.
    pub fn end(&self) {
        self.is_over.store(true, Ordering::SeqCst);
    }

    // Wakes the loops that wait for a connection.
    fn knock<N: Dial>(&self, net: &mut N) {
        knock(net, self.at);
        if let Some(at) = self.beside {
            knock(net, at);
        }
    }

    /// Says that it is over, ends the connections that wait for a byte, and wakes the loops that wait for a connection.
    pub fn stop<N: Dial>(&self, net: &mut N) {
        self.end();
        net.end_links();
        self.knock(net);
    }

    /// What is left to do once a loop has ended: ends the connections that wait for a byte, and wakes the loop of the other
    /// port, if there is one.
    pub fn wake<N: Dial>(&self, net: &mut N) {
        net.end_links();
        if self.beside.is_some() {
            self.knock(net);
        }
    }
}

/// The pause that a duty asks for: behind a turn of a work `rest_ms` milliseconds, and a short one while there is no room
/// for one more connection. The other duties ask for none.
pub fn pause_for<K: Clock>(clock: &mut K, duty: Duty, rest_ms: u64) {
    match duty {
        Duty::Rest(_) => clock.pause(rest_ms),
        Duty::Pause => clock.pause(SHORT_PAUSE_MS),
        _ => {}
    }
}
