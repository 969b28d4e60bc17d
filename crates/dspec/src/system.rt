ghost use Rattle.std.specs.{Prelude.◌≡◌, Prelude.◌≤◌, Prelude.ℕ, Time.instant_nanos};
ghost use Rattle.dspec.specs.Counts.{count_at, start_of, time_of_start};

use crate::clock::Clock;
use std::time::{Instant, SystemTime};
use std::{io, time};

/// Counts nanoseconds from its start on, up to `u64::MAX`, which is some 584 years. It never falls, on whichever threads it is read,
/// as far as the system's own clock never goes back: that is a monotonic one.
#[derive(Drop)]
pub struct SystemClock<'a, R = HostRuntime> {
    rt: &'a R,
    start: Instant,
    started_at: SystemTime,
}

impl<'a, R: time::Clock> SystemClock<'a, R> {
    /// A clock that starts now. It fails where the system's clock or its time of day can't be read.
    pub fn start(rt: &'a R) -> io::Result<SystemClock<'a, R>> {
        let start = Instant::now(rt)?;
        Ok(SystemClock {
            rt,
            start,
            started_at: SystemTime::now(rt)?,
        })
    }

    /// The time of day at its start, as the system had it then: that of the stamp 0. A trace folder is told it by `Origin::since`.
    pub fn started_at(&self) -> SystemTime
        ensures { result ≡ time_of_start self.now }
    {
        self.started_at
    }

    /// What it counts at a reading of the same system's clock: 0 at one from before its start.
    pub fn count(&self, reading: Instant) -> u64
        ensures counts { result ≡ count_at (start_of self.now) (instant_nanos reading) }
        ensures never_falls { (earlier : ℕ) → earlier ≤ instant_nanos reading → count_at (start_of self.now) earlier ≤ result }
    {
        let nanos = reading.duration_since(self.start).as_nanos();
        u64::try_from(nanos).unwrap_or(u64::MAX)
    }
}

impl<'a, R: time::Clock> Clock for SystemClock<'a, R> {
    /// What it counts now; 0 where the system's clock can't be read any more.
    fn stamp(&self) -> u64 {
        match Instant::now(self.rt) {
            Ok(reading) => self.count(reading),
            Err(_) => 0,
        }
    }
}
