//! The one CPU of a session that has just begun.
ghost use Rattle.std.specs.Prelude.{◌≡◌, IfSome};
ghost use Rattle.dspec_cpu.specs.{Lists.schema_of, Lists.words_of, Standing.Belongs, Standing.identity};

use dspec_cpu::{Cpu, Shared};
use dspec_deeds::Config;
use dspec_record::Schema;
use dspec_ring::pair;
use dspec_table::Words;
use std::alloc::Global;

/// Its first CPU, and what it shares; None for want of memory.
pub fn begin<S: Schema>(alloc: Global, config: &Config, schema: S) -> Option<(Cpu<S>, Shared)>
    requires one { config.now.cpus ≡ 1 }
    ensures of { IfSome result (λ r. Belongs (words_of r.1) (identity r.0)) }
    ensures schema { IfSome result (λ r. schema_of r.0 ≡ schema) }
{
    let Ok((words, mut seats, _)) = Words::start(alloc, config) else {
        return None;
    };
    let Some(seat) = seats.pop() else {
        return None;
    };
    let Ok((end, _)) = pair(alloc) else {
        return None;
    };
    let Ok(cpu) = Cpu::make(alloc, 0, config, schema, seat, end) else {
        return None;
    };
    Some((cpu, Shared::make(words)))
}
