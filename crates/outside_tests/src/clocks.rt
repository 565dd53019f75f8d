// The clock over the system's clock.
use actor_ports::{Clock, SystemClock};
use std::sync::atomic::{AtomicUsize, Ordering};
use std::test::Fail;
use std::time::Duration;
use std::{io, time};

// A clock that gives these moments in order, and can't be read when none is left.
#[derive(Drop)]
struct Told<'a> {
    moments: &'a [u64],
    place: AtomicUsize,
}

impl time::Clock for Told<'_> {
    fn monotonic(&self) -> io::Result<Duration> {
        Ok(Duration::ZERO)
    }

    fn since_1970(&self) -> io::Result<Duration> {
        let place = self.place.fetch_add(1, Ordering::SeqCst);
        let Some(moment) = self.moments.get(place) else {
            return Err(io::Error::from(io::ErrorKind::InvalidData));
        };
        Ok(Duration::from_millis(*moment))
    }
}

#[test]
fn shown_moments_never_fall(rt: HostRuntime) {
    let told = Told {
        moments: &[7, 5, 9, u64::MAX, 8],
        place: AtomicUsize::new(0),
    };
    let mut clock = SystemClock::new(&told);
    for moment in [7, 7, 9, 253_370_764_799_999, 253_370_764_799_999] {
        assert_eq!(rt; clock.now_ms(), moment);
    }
    assert_eq!(rt; clock.now_ms(), 253_370_764_799_999);
}

#[test]
fn steady_clock_takes_no_step_of_the_system_clock(rt: HostRuntime) {
    let told = Told {
        moments: &[7_200_000, 10_800_000, 3_600_000],
        place: AtomicUsize::new(0),
    };
    let mut clock = SystemClock::steady(&told);
    for _ in 0..4 {
        assert_eq!(rt; clock.now_ms(), 7_200_000);
    }
}

#[test]
fn pause_lets_time_pass(rt: HostRuntime) -> Result<(), Fail> {
    let mut clock = SystemClock::new(rt);
    let before = clock.now_ms();
    assert!(rt; before > 1_700_000_000_000);
    clock.pause(20);
    assert!(rt; clock.another()?.now_ms() >= before.wrapping_add(10));
    Ok(())
}
