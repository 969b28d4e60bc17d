ghost use Rattle.std.specs.Prelude.{◌≡◌, List};
ghost use Rattle.dspec_deeds.specs.declared.deed.Deed.{Deed};
ghost use Rattle.dspec_table.specs.{Meeting.Met, Seats.IsConsumerAt, Seats.known, Seats.known_there};
ghost use Rattle.dspec_cpu.specs.{Keeping.MovesItsSeat, Lists.seat_of, Lists.words_of, Lists.worn_of, Standing.Belongs, Standing.identity};

use crate::cpu::Cpu;
use crate::listed::Listed;
use crate::shared::Shared;
use dspec_record::Schema;
use dspec_table::ConsumerSeat;

impl<S: Schema> Cpu<S> {
    /// The CPU and the consumer meet, between calls: both have then seen what each had seen, and the CPU knows the consumer's
    /// asks. It is no call, and does no deed: the lists of both are as before. It is one load of activity by each.
    pub fn meet(&mut self, shared: &Shared, consumer: &mut ConsumerSeat)
        requires of { Belongs (words_of shared.now) (identity self.old) }
        requires consumer { IsConsumerAt (words_of shared.now) consumer.old }
        ensures consumer { IsConsumerAt (words_of shared.now) consumer.new }
        ensures same { (identity self.new ≡ identity self.old) × (worn_of self.new ≡ worn_of self.old) }
        ensures leaves { MovesItsSeat self.old self.new }
        ensures met { Met (known (seat_of self.old)) (known_there consumer.old) (known (seat_of self.new)) (known_there consumer.new) }
        ensures list { (p : List Deed) → ⟦<Cpu<S> as Listed>⟧.has_list self.old p → ⟦<Cpu<S> as Listed>⟧.has_list self.new p }
    {
        self.parts.seat.meet(&shared.words, consumer);
    }
}
