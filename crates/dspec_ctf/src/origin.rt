ghost use Rattle.std.specs.{Duration.as_nanos, Prelude.◌≡◌, Prelude.◌<◌, Prelude.◌*◌, Prelude.◌/◌, Prelude.None, Prelude.Some, Time.system_time_nanos};
ghost use Rattle.dspec_ctf.specs.Starts.{clock_start_at};

use std::time::{Duration, SystemTime, UNIX_EPOCH};

/// Nanoseconds of a second.
const NANOS: u128 = 1_000_000_000;

/// The process that writes a trace, as other tools show it beside each event. Its texts are of one line: 1 to 255 bytes of printable
/// ASCII without quotes and backslashes.
#[derive(Debug, Clone, Copy)]
pub struct Process<'a> {
    /// The name of the machine.
    pub host: &'a str,
    /// The name of the program.
    pub name: &'a str,
    /// The number of the process.
    pub pid: u32,
}

/// Where the clock of a trace's stamps began, from the beginning of 1970 on. Traces of
/// clocks that are told so are merged by time. As taken there is no clock, and this isn't shown.
#[derive(Debug, Clone, Copy)]
pub struct ClockStart {
    /// Whole seconds.
    pub seconds: u64,
    /// Ticks of the clock after them.
    pub ticks: u64,
    /// The clock's own uuid, where several processes read one clock.
    pub clock: Option<[u8; 16]>,
}

// Time since 1970.
fn since_1970(time: SystemTime) -> Duration
    ensures { as_nanos result ≡ system_time_nanos time }
{
    match time.duration_since(UNIX_EPOCH) {
        Ok(since) => since,
        Err(_) => Duration::ZERO,
    }
}

// As many ticks as these nanoseconds have, by the number of ticks in a second.
fn ticks_in(nanos: u32, hertz: u64) -> u64
    requires { nanos < 1_000_000_000 }
    ensures { result ≡ nanos * hertz / 1_000_000_000 }
{
    (u128::from(nanos) * u128::from(hertz) / NANOS) as u64
}

impl ClockStart {
    /// The start of a clock that was at 0 at this time of day, and has so many ticks in a second; it has no uuid of its own.
    pub fn at(time: SystemTime, hertz: u64) -> ClockStart
        ensures { result ≡ clock_start_at hertz (system_time_nanos time) }
    {
        let since = since_1970(time);
        ClockStart {
            seconds: since.as_secs(),
            ticks: ticks_in(since.subsec_nanos(), hertz),
            clock: None,
        }
    }
}

/// Whose trace it is. The uuid is this trace's alone: tools take folders of one uuid for one trace, and lose events of it in silence.
#[derive(Debug, Clone, Copy)]
pub struct Origin<'a> {
    /// The trace's uuid.
    pub uuid: [u8; 16],
    /// Who writes it, where that is told.
    pub process: Option<Process<'a>>,
    /// Where the clock of its stamps began, where that is told.
    pub start: Option<ClockStart>,
}

impl<'a> Origin<'a> {
    /// Of a trace of which nothing is told but its uuid.
    pub fn of(uuid: [u8; 16]) -> Origin<'a>
        ensures { result ≡ record { uuid = uuid; process = None; start = None } }
    {
        Origin {
            uuid,
            process: None,
            start: None,
        }
    }

    /// The same, with a clock for its stamps that was at 0 at this time of day, and has so many ticks in a second: tools then show the
    /// time of day of each event. Of the clock of `dspec` these are `SystemClock::started_at` and 1,000,000,000.
    pub fn since(self, time: SystemTime, hertz: u64) -> Origin<'a>
        ensures { result ≡ record { uuid = self.entry.uuid; process = self.entry.process; start = Some (clock_start_at hertz (system_time_nanos time)) } }
    {
        Origin {
            start: Some(ClockStart::at(time, hertz)),
            ..self
        }
    }
}
