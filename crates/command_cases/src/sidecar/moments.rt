// The time of a trial.
use super::stage::Stage;
use std::time::{Clock, Duration};
use std::{io, thread};

// How long a pause takes, however long it is to be, in milliseconds.
const PAUSE_MS: u64 = 1;

/// What shows the moment of a stage.
#[derive(Clone, Copy, Drop)]
pub(crate) struct Moments<'a, R: Clock + Copy + Send> {
    pub(crate) rt: R,
    pub(crate) stage: &'a Stage,
}

impl<R: Clock + Copy + Send> Clock for Moments<'_, R> {
    fn monotonic(&self) -> io::Result<Duration> {
        Ok(Duration::from_millis(self.stage.moment()))
    }

    fn since_1970(&self) -> io::Result<Duration> {
        Ok(Duration::from_millis(self.stage.moment()))
    }

    fn sleep(&self, _duration: Duration) {
        thread::sleep(&self.rt, Duration::from_millis(PAUSE_MS));
    }
}
