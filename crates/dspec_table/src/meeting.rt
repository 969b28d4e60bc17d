ghost use Rattle.std.specs.Prelude.{◌≡◌, [], true};
ghost use Rattle.dspec_table.specs.{Holders.of_nobody, Holders.same_holder, Layout.activity_place, Meeting.Met, Notes.answered, Notes.heard, Notes.note, Seats.known, Seats.known_there, Seats.IsAt};
ghost use Rattle.dspec_table.specs.{Seats.IsConsumerAt, Seats.cpu_of, Steps.Looked};

use crate::layout::ACTIVITY_PLACE;
use crate::rule::AnySeat;
use crate::seats::{ConsumerSeat, CpuSeat, Words};
use crate::word_steps::{JoinAnswer, Looks, Note};

impl Words {
    // A load of activity that enters nothing.
    fn look(&self, seat: &mut AnySeat)
        requires seat { (seat.old.table_id ≡ self.now.board.shared.table_id) × (same_holder seat.old.me.0.who seat.old.me.0.who ≡ true) × (seat.old.me.0.also ≡ []) }
        ensures seat { (seat.new.table_id ≡ seat.old.table_id) × (seat.new.me.1 ≡ seat.old.me.1) }
        ensures step { Looked activity_place seat.old.me.0 seat.new.me.0 }
    {
        self.board.shared.load::<Looks>(seat, ACTIVITY_PLACE);
    }

    // A note of what the seat has seen, and of the asks that it knows.
    fn note(&self, seat: &mut AnySeat) -> AnySeat
        requires seat { seat.old.table_id ≡ self.now.board.shared.table_id }
        ensures seat { (seat.new.table_id ≡ seat.old.table_id) × (seat.new.me ≡ seat.old.me) }
        ensures note { (result.table_id ≡ self.now.board.shared.table_id) × (result.me ≡ (note seat.old.me.0, [])) }
    {
        self.board.shared.split_seat::<Note>(seat)
    }

    // A CPU's seat takes in a note.
    fn hear(&self, seat: &mut AnySeat, told: AnySeat)
        requires seat { seat.old.table_id ≡ self.now.board.shared.table_id }
        requires note { (told.table_id ≡ self.now.board.shared.table_id) × (told.me.1 ≡ []) × (told.me.0.who ≡ of_nobody) × (told.me.0.also ≡ []) }
        ensures seat { (seat.new.table_id ≡ seat.old.table_id) × (seat.new.me ≡ (heard seat.old.me.0 told.me.0, seat.old.me.1)) }
    {
        self.board.shared.join_seat::<Note>(seat, told);
    }

    // The consumer's seat takes in a note.
    fn hear_there(&self, seat: &mut AnySeat, told: AnySeat)
        requires seat { seat.old.table_id ≡ self.now.board.shared.table_id }
        requires note { (told.table_id ≡ self.now.board.shared.table_id) × (told.me.1 ≡ []) × (told.me.0.who ≡ of_nobody) × (told.me.0.also ≡ []) }
        ensures seat { (seat.new.table_id ≡ seat.old.table_id) × (seat.new.me ≡ (answered seat.old.me.0 told.me.0, seat.old.me.1)) }
    {
        self.board.shared.join_seat::<JoinAnswer>(seat, told);
    }

    // Between the notes and the loads the seats are no whole seats, since a note waits.
    fn meet_there(&self, cpu: &mut AnySeat, consumer: &mut AnySeat)
        requires cpu { (cpu.old.table_id ≡ self.now.board.shared.table_id) × (same_holder cpu.old.me.0.who cpu.old.me.0.who ≡ true) × (cpu.old.me.0.also ≡ []) }
        requires consumer { (consumer.old.table_id ≡ self.now.board.shared.table_id) × (same_holder consumer.old.me.0.who consumer.old.me.0.who ≡ true) × (consumer.old.me.0.also ≡ []) }
        ensures cpu { (cpu.new.table_id ≡ cpu.old.table_id) × (cpu.new.me.1 ≡ cpu.old.me.1) }
        ensures consumer { (consumer.new.table_id ≡ consumer.old.table_id) × (consumer.new.me.1 ≡ consumer.old.me.1) }
        ensures met { Met cpu.old.me.0 consumer.old.me.0 cpu.new.me.0 consumer.new.me.0 }
    {
        let told = self.note(consumer);
        self.hear(cpu, told);
        self.look(cpu);
        let back = self.note(cpu);
        self.hear_there(consumer, back);
        self.look(consumer);
    }
}

impl CpuSeat {
    /// A CPU and the consumer meet: both have then seen what each had seen, and the CPU knows the consumer's asks. Neither
    /// has a call in flight. It is one load of activity by each, and a fixed number of notes.
    pub fn meet(&mut self, words: &Words, consumer: &mut ConsumerSeat)
        requires cpu { IsAt words.now self.old }
        requires consumer { IsConsumerAt words.now consumer.old }
        ensures cpu { IsAt words.now self.new × (cpu_of self.new ≡ cpu_of self.old) }
        ensures consumer { IsConsumerAt words.now consumer.new }
        ensures met { Met (known self.old) (known_there consumer.old) (known self.new) (known_there consumer.new) }
    {
        words.meet_there(&mut self.seat, &mut consumer.seat);
    }
}
