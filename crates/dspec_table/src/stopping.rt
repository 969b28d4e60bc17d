ghost use Rattle.dspec_table.specs.{Seats.known_there, Seats.IsConsumerAt, Steps.StoredActivity};

use crate::layout::ACTIVITY_PLACE;
use crate::seats::{ConsumerSeat, Words};
use crate::word_steps::StoresActivity;

impl ConsumerSeat {
    /// Stops the session. A second time nothing changes.
    pub fn store_activity(&mut self, words: &Words)
        requires seat { IsConsumerAt words.now self.old }
        ensures seat { IsConsumerAt words.now self.new }
        ensures step { StoredActivity (known_there self.old) (known_there self.new) }
    {
        words
            .board
            .shared
            .store::<StoresActivity>(&mut self.seat, ACTIVITY_PLACE, 1);
    }
}
