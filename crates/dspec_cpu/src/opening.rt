ghost use Rattle.std.specs.Prelude.{◌+◌, ◌*◌};
ghost use Rattle.dspec_table.specs.Seats.{known};
ghost use Rattle.dspec_cpu_state.specs.Counting.{is_stopped_opening};
ghost use Rattle.dspec_cpu.specs.{Between.OpensBetween, Keeping.CallLeaves, Lists.IsSameCpu, Lists.config_of, Lists.number_in, Lists.seat_of, Lists.words_of, Scans.is_worn_opening};
ghost use Rattle.dspec_cpu.specs.{Touching.last_looked, Touching.of_slots};

use crate::callable::Callable;
use crate::cpu::Cpu;
use crate::listed::Listed;
use crate::parts::CpuParts;
use crate::scanning::scan_slots;
use crate::shared::Shared;
use dspec_deeds::Opening;
use dspec_record::Schema;

impl<S: Schema> CpuParts<S> {
    // As `Cpu::speculation`.
    pub(crate) fn speculation(&mut self, shared: &Shared) -> Opening
        requires ready { ⟦<CpuParts<S> as Callable>⟧.is_ready (words_of shared.now) self.old }
        ensures ready { ⟦<CpuParts<S> as Callable>⟧.is_ready (words_of shared.now) self.new }
        ensures same { IsSameCpu self.old self.new }
        ensures leaves { CallLeaves (is_worn_opening result) (is_stopped_opening result) (1 + 2 * (config_of self.old).nspec) (of_slots (last_looked (config_of self.old).nspec result)) self.old self.new }
        ensures opens { OpensBetween ⟦<Cpu<S> as Listed>⟧.has_list result self.old self.new }
    {
        if self.side.calls >= self.config.max_calls {
            self.side.counts.wear();
            return Opening::Worn;
        }
        let (answer, busy) = scan_slots(&mut self.seat, &shared.words, &self.config);
        self.side.calls += 1;
        self.side.missed_busy = busy;
        self.side.counts.open(&answer);
        answer
    }
}
