ghost use Rattle.std.specs.{Bool.OnTrue, Bool.OnFalse, Prelude.◌≡◌, Prelude.◌+◌, Prelude.◌<◌, Prelude.length, Prelude.if◌then◌else◌};
ghost use Rattle.dspec_parking.specs.{Blocks.standing_in, Blocks.without_oldest, Parkings.CanHold, Passing.MakesRoom, Passing.OldestIsOld, Passing.OldestIsYoung, Passing.PassesOld};

use crate::block_ring::BlockRing;
use crate::passed_places::PassedPlaces;

impl BlockRing {
    /// The tail passes the oldest place. Whether its block stood there still.
    pub fn pass_oldest(&mut self) -> bool
        requires { 0 < length self.old.places }
        ensures ring { self.new ≡ without_oldest 1 self.old }
        ensures stood { standing_in self.old.places ≡ (if result then 1 else 0) + standing_in self.new.places }
    {
        let Some(entry) = self.entries.pop_front() else {
            unreachable!()
        };
        self.bytes.drop_front(entry.length);
        self.passed = self.passed.wrapping_add(entry.length);
        !entry.is_kept
    }

    /// The tail passes the fewest of the oldest places that make room for so many bytes.
    pub fn make_room(&mut self, length: usize) -> PassedPlaces
        requires { CanHold self.old length }
        ensures { MakesRoom length result self.old self.new }
    {
        let most = self.len();
        let mut gone = PassedPlaces::none();
        'passing: while !self.has_room(length) {
            prove!(gone.places < most);
            let stood = self.pass_oldest();
            gone = gone.one_more(stood);
        }
        gone
    }

    /// Whether the block of the oldest place was kept already, or has a stamp before this one.
    pub fn oldest_is_old(&self, before: u64) -> bool
        ensures old { OnTrue result (OldestIsOld before self.now) }
        ensures young { OnFalse result (OldestIsYoung before self.now) }
    {
        match self.entries.get(0) {
            Some(entry) => entry.is_kept || entry.stamp < before,
            None => false,
        }
    }

    /// The tail passes the oldest places, up to the first that isn't old, and no more than so many.
    pub fn pass_old(&mut self, before: u64, most: usize) -> PassedPlaces
        ensures { PassesOld before most result self.old self.new }
    {
        let mut gone = PassedPlaces::none();
        'passing: while gone.places < most && self.oldest_is_old(before) {
            let stood = self.pass_oldest();
            gone = gone.one_more(stood);
        }
        gone
    }
}
