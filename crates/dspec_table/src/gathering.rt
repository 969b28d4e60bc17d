ghost use Rattle.std.specs.Prelude.{◌≡◌, ◌<◌};
ghost use Rattle.dspec_table.specs.{Last.AllAt, Last.AreSeats, Last.Joined, Last.Recalled, Last.Ended, Last.last_words, Last.last_set_up, Seats.known_there, Seats.set_up, Seats.IsConsumerAt};

use crate::last::LastWords;
use crate::rule::{AnySeat, Board};
use crate::seats::{ConsumerSeat, CpuSeat, Words};
use crate::word_steps::Gather;

fn collect(board: &Board, mut seats: Vec<CpuSeat>, gatherer: &mut AnySeat)
    requires gatherer { gatherer.old.table_id ≡ board.now.shared.table_id }
    requires seats { AllAt board.now.shared.table_id seats.items }
    requires words { 0 < board.now.shared.table_id.words }
    ensures gatherer { (gatherer.new.table_id ≡ board.now.shared.table_id) × (gatherer.new.me.0.who ≡ gatherer.old.me.0.who) × (gatherer.new.me.0.own ≡ gatherer.old.me.0.own) }
    ensures knows { (gatherer.new.me.0.seen ≡ gatherer.old.me.0.seen) × (gatherer.new.me.0.asks ≡ gatherer.old.me.0.asks) }
    ensures joined { Joined seats.items gatherer.new.me.0 }
    ensures recalled { Recalled seats.items gatherer.new.me.0 }
{
    while let Some(next) = seats.pop() {
        let CpuSeat { seat, cpu: _ } = next;
        board.shared.join_seat::<Gather>(gatherer, seat);
    }
}

impl Words {
    /// Takes back all seats that `start` gave, none with a call in flight, and closes the words.
    pub fn gather(self, seats: Vec<CpuSeat>, consumer: ConsumerSeat) -> LastWords
        requires consumer { IsConsumerAt self consumer }
        requires seats { AreSeats self seats.items }
        ensures ended { Ended (set_up self) (last_words result) seats.items (known_there consumer) }
        ensures config { last_set_up result ≡ set_up self }
    {
        let Words { board, config } = self;
        let ConsumerSeat { seat: mut gatherer } = consumer;
        collect(&board, seats, &mut gatherer);
        let closed = board.close_with(gatherer);
        LastWords { closed, config }
    }
}
