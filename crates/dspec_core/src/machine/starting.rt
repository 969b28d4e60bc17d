ghost use Rattle.std.specs.Prelude.{◌≡◌, ◌<◌, ℕ, [], None, IfOk};
ghost use Rattle.dspec_core.specs.{Machines.state_of, Shown.ShowsCpu, Worlds.WorldInvariant};
ghost use Rattle.dspec_interleaving.specs.{Coherent.idle_progress, Turns.at_start};
ghost use Rattle.dspec_deeds.specs.Ranges.{start_fault};

use crate::machine::Machine;
use crate::machine::cpu::Cpu;
use dspec_buffer::TraceBuffer;
use dspec_cpu_state::CpuState;
use dspec_deeds::Config;
use dspec_interleaving::{ConsumerProgress, CpuProgress, Series, Spare};
use dspec_record::Schema;
use dspec_word::{Code, Word};
use std::alloc::{AllocError, Global};

impl<S: Schema, B: TraceBuffer<S>> Machine<S, B> {
    /// A session before its first call: of each CPU all buffers are empty, and a spare is in hand.
    pub fn new(alloc: Global, config: Config, schema: S) -> Result<Self, AllocError>
        requires fine { start_fault config ≡ None }
        ensures kept { IfOk result (λ machine. WorldInvariant B.has B.capacity S.shape_of S.accepted machine) }
        ensures state { IfOk result (λ machine. state_of machine ≡ at_start config) }
        ensures schema { IfOk result (λ machine. machine.schema ≡ schema) }
    {
        let mut words = Vec::new(alloc);
        for _ in 0..config.nspec {
            words.push(Word::of(0, Code::Inactive))?;
        }
        let progress = CpuProgress {
            flight: None,
            steps: 0,
            spare: Spare::InHand,
            want: 0,
            takes: 0,
            worn: 0,
        };
        let mut cpus = Vec::new(alloc);
        for _ in 0..config.cpus {
            cpus.push(Cpu {
                progress,
                side: CpuState::<B>::make::<S>(alloc, &config)?,
                second: B::make(alloc, config.bufsize)?,
                sealed_drops: 0,
                accepted: Series::new(alloc),
                taken: Series::new(alloc),
            })?;
        }
        Ok(Machine {
            config,
            schema,
            words,
            halted: false,
            cpus,
            consumer: ConsumerProgress {
                flight: None,
                steps: 0,
            },
            deeds: Series::new(alloc),
        })
    }
}
