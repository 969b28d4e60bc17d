ghost use Rattle.std.specs.Prelude.{◌≡◌, [], None, IfOk, IsSome};
ghost use Rattle.dspec_deeds.specs.Ranges.{start_fault};
ghost use Rattle.dspec_ring.specs.Known.{IsUnusedCpu};
ghost use Rattle.dspec_table.specs.{Seats.known, Seats.cpu_of, Seats.fresh_seat, Seats.IsAt, declared.seats.Words.Words};
ghost use Rattle.dspec_cpu.specs.{Lists.config_of, Lists.end_of, Lists.number_in, Lists.schema_of, Lists.seat_of, Lists.spare_of, Lists.worn_of, Standing.Belongs, Standing.identity};

use crate::cpu::Cpu;
use crate::listed::Listed;
use crate::parts::CpuParts;
use dspec_buffer::{ByteBuffer, TraceBuffer};
use dspec_cpu_state::CpuState;
use dspec_deeds::Config;
use dspec_record::Schema;
use dspec_ring::CpuEnd;
use dspec_table::CpuSeat;
use std::alloc::{AllocError, Global};

impl<S: Schema> Cpu<S> {
    /// A CPU before its first call, on its seat and its end of the rings: all buffers are empty, and one spare is in hand. It
    /// takes all memory that its calls will need. Kept apart, so that its frame isn't one with that of a session's start.
    #[inline(never)]
    pub fn make(
        alloc: Global,
        cpu: u32,
        config: &Config,
        schema: S,
        seat: CpuSeat,
        end: CpuEnd,
    ) -> Result<Cpu<S>, AllocError>
        requires fine { start_fault config.now ≡ None }
        requires seat { cpu_of seat ≡ cpu }
        requires unused { known seat ≡ fresh_seat config.now cpu }
        requires end { IsUnusedCpu end }
        ensures of { IfOk result (λ made. (words : Words) → IsAt words seat → Belongs words (identity made)) }
        ensures list { IfOk result (λ made. ⟦<Cpu<S> as Listed>⟧.has_list made []) }
        ensures config { IfOk result (λ made. (config_of made ≡ config.now) × (number_in made ≡ cpu) × (schema_of made ≡ schema)) }
        ensures parts { IfOk result (λ made. (seat_of made ≡ seat) × (end_of made ≡ end) × (worn_of made ≡ 0)) }
        ensures spare { IfOk result (λ made. IsSome (spare_of made)) }
    {
        let side = CpuState::<ByteBuffer>::make::<S>(alloc, config)?;
        let spare = <ByteBuffer as TraceBuffer<S>>::make(alloc, config.bufsize)?;
        let parts = CpuParts {
            schema,
            config: *config,
            cpu,
            seat,
            end,
            side,
            spare: Some(spare),
            held_back: None,
        };
        Ok(Cpu { parts })
    }
}
