ghost use Rattle.std.specs.Prelude.{◌≡◌, ◌≤◌, ◌+◌, ◌*◌};
ghost use Rattle.dspec_table.specs.Seats.{known};
ghost use Rattle.dspec_cpu.specs.{Between.ServesBetween, Lists.IsSameCpu, Lists.config_of, Lists.end_of, Lists.held_back_of, Lists.number_in, Lists.seat_of, Lists.words_of, Lists.worn_of};
ghost use Rattle.dspec_cpu.specs.{Switching.buffers_of, Switching.most_moves, Touching.Touches, Touching.of_service};

use crate::callable::Callable;
use crate::cpu::Cpu;
use crate::listed::Listed;
use crate::parts::CpuParts;
use crate::shared::Shared;
use dspec_deeds::Served;
use dspec_record::Schema;

impl<S: Schema> CpuParts<S> {
    // As `Cpu::service`.
    pub(crate) fn service(&mut self, shared: &Shared) -> Served
        requires ready { ⟦<CpuParts<S> as Callable>⟧.is_ready (words_of shared.now) self.old }
        ensures ready { ⟦<CpuParts<S> as Callable>⟧.is_ready (words_of shared.now) self.new }
        ensures same { IsSameCpu self.old self.new }
        ensures wears { worn_of self.new ≡ worn_of self.old }
        ensures bounded { (known (seat_of self.new)).steps ≤ (known (seat_of self.old)).steps + 1 + 2 * (config_of self.old).nspec }
        ensures touches { Touches (of_service (config_of self.old) (number_in self.old)) (known (seat_of self.old)) (known (seat_of self.new)) }
        ensures moves { (end_of self.new).moves ≤ (end_of self.old).moves + most_moves (held_back_of self.old) }
        ensures serves { ServesBetween ⟦<Cpu<S> as Listed>⟧.has_list result self.old self.new }
    {
        let sealed = self.switch(&shared.words);
        let settled = self.settle_slots(&shared.words);
        Served { sealed, settled }
    }
}
