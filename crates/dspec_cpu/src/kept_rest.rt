ghost use Rattle.std.specs.Prelude.{◌≡◌};
ghost use Rattle.dspec_cpu.specs.{KeptRests.rest_with, Rests.schema_of_rest};

use crate::rest::CpuRest;
use dspec_buffer::ByteBuffer;
use dspec_cpu_state::CpuState;
use dspec_deeds::Config;
use dspec_record::Schema;
use dspec_ring::Batch;

/// What is left of a CPU but its schema, which is the same for all CPUs of a session: it takes little room, so those of all CPUs can
/// stand in one list until the words are closed.
#[derive(Drop)]
pub struct KeptRest {
    pub(crate) config: Config,
    pub(crate) cpu: u32,
    pub(crate) side: CpuState<ByteBuffer>,
    pub(crate) held_back: Option<Batch>,
}

impl KeptRest {
    /// All that is left of the CPU, where this is its schema.
    pub fn with_schema<S: Schema>(self, schema: S) -> CpuRest<S>
        ensures { result ≡ rest_with schema self }
    {
        let KeptRest {
            config,
            cpu,
            side,
            held_back,
        } = self;
        CpuRest {
            schema,
            config,
            cpu,
            side,
            held_back,
        }
    }
}

impl<S: Schema> CpuRest<S> {
    /// What is left but the schema.
    pub fn without_schema(self) -> KeptRest
        ensures { self ≡ rest_with (schema_of_rest self) result }
    {
        let CpuRest {
            schema: _,
            config,
            cpu,
            side,
            held_back,
        } = self;
        KeptRest {
            config,
            cpu,
            side,
            held_back,
        }
    }
}
