//! What a `SystemClock` counts, over a system whose time is the test's own, and over the machine's.
use dspec::{Clock, SystemClock};
use std::sync::atomic::{AtomicU64, Ordering};
use std::test::Fail;
use std::time::{Duration, Instant, UNIX_EPOCH};
use std::{io, time};

/// A system whose clock goes on by 1,500 nanoseconds a reading, and can be read five times.
#[derive(Drop)]
struct Readings {
    count: AtomicU64,
}

impl time::Clock for Readings {
    fn monotonic(&self) -> io::Result<Duration> {
        let count = self.count.fetch_add(1, Ordering::SeqCst);
        if count >= 5 {
            return Err(io::Error::from(io::ErrorKind::Other));
        }
        Ok(Duration::from_nanos(count * 1500))
    }

    fn since_1970(&self) -> io::Result<Duration> {
        Ok(Duration::new(1_700_000_000, 25))
    }
}

#[test]
fn nanoseconds_are_counted(rt: HostRuntime) -> Result<(), Fail> {
    let readings = Readings {
        count: AtomicU64::new(0),
    };
    let earlier = Instant::now(&readings)?;
    let clock = SystemClock::start(&readings)?;
    assert!(rt; clock.started_at() == UNIX_EPOCH + Duration::new(1_700_000_000, 25));
    assert!(rt; clock.stamp() == 1500);
    assert!(rt; clock.stamp() == 3000);
    let later = Instant::now(&readings)?;
    assert!(rt; clock.count(later) == 4500 && clock.count(earlier) == 0);
    assert!(rt; clock.stamp() == 0);
    Ok(())
}

/// How often the machine's clock is read until it has moved.
const MOST_READINGS: u32 = 10_000_000;

#[test]
fn machine_is_read(rt: HostRuntime) -> Result<(), Fail> {
    let clock = SystemClock::start(&rt)?;
    let first = clock.stamp();
    let mut last = first;
    for _ in 0..MOST_READINGS {
        let next = clock.stamp();
        assert!(rt; last <= next);
        last = next;
        if first < last {
            break;
        }
    }
    assert!(rt; first < last);
    Ok(())
}
