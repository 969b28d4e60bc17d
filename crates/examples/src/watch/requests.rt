ghost use Rattle.std.specs.Prelude.{◌≡◌};
ghost use Rattle.examples.specs.WatchRequests.{fails_with, request_number, spread_bits};

use crate::watch::probes::Action;

/// How many workers there are. Worker W handles the requests W, W + 4, W + 8, ..
pub const WORKERS: u32 = 4;
/// How many requests each handles.
pub const ROUNDS: u64 = 100;

/// Spreads the bits of a number, as SplitMix64 does.
fn spread(number: u64) -> u64
    ensures { result ≡ spread_bits number }
{
    let mixed = number.wrapping_add(0x9e37_79b9_7f4a_7c15);
    let mixed = (mixed ^ (mixed >> 30)).wrapping_mul(0xbf58_476d_1ce4_e5b9);
    let mixed = (mixed ^ (mixed >> 27)).wrapping_mul(0x94d0_49bb_1331_11eb);
    mixed ^ (mixed >> 31)
}

/// A request that the generator makes up: it is accepted, parsed, makes up to four queries, and is answered unless it fails.
#[derive(Clone, Copy)]
pub struct Request {
    pub number: u64,
    pub fails: bool,
    queries: u64,
    noise: u64,
}

impl Request {
    /// The request of a worker in a round, which the seed decides.
    pub fn of(seed: u64, worker: u64, round: u64) -> Request
        ensures number { result.number ≡ request_number worker round }
        ensures fails { result.fails ≡ fails_with seed (request_number worker round) }
    {
        let number = round.wrapping_mul(u64::from(WORKERS)).wrapping_add(worker);
        let noise = spread(spread(seed).wrapping_add(number));
        Request {
            number,
            fails: noise % 32 == 0,
            queries: 1 + noise / 32 % 4,
            noise,
        }
    }

    /// How many steps it has.
    pub fn steps(&self) -> u64 {
        let answers = if self.fails { 0 } else { 1 };
        self.queries.saturating_add(2 + answers)
    }

    /// What a step does, and what is recorded of it: the number of the request, and the microseconds.
    pub fn step(&self, place: u64) -> (Action, (u32, u32)) {
        let action = match place {
            0 => Action::Accept,
            1 => Action::Parse,
            _ if place.saturating_sub(2) < self.queries => Action::Query,
            _ => Action::Answer,
        };
        let micros = spread(self.noise.wrapping_add(place)) % 1000;
        (action, ((self.number % (1 << 32)) as u32, micros as u32))
    }
}
