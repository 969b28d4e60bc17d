ghost use Rattle.std.specs.Prelude.{◌≡◌, IfOk, length};
ghost use Rattle.dspec_deeds.specs.declared.config.Policy.TheVariants.{Switch};
ghost use Rattle.dspec_session.specs.{Demonstrated.demonstrated, Races.AreFresh, Races.HaveOffered, Races.HaveRoom, Races.IsDemonstrated};

use dspec_deeds::{Config, Policy, StartFault};
use dspec_record::Enablings;
use dspec_session_core::Session;
use std::alloc::Global;

/// The configuration of the demonstration: four CPUs, eight speculations at once, principal buffers of 4096 bytes and
/// speculative ones of 512.
fn demo_config() -> Config
    ensures { result ≡ record { cpus = 4; nspec = 8; bufsize = 4096; specsize = 512; max_issues = 1000; max_calls = 1000; policy = Switch } }
{
    Config {
        cpus: 4,
        nspec: 8,
        bufsize: 4096,
        specsize: 512,
        max_issues: 1000,
        max_calls: 1000,
        policy: Policy::Switch,
    }
}

/// A session of the demonstration, before any call.
pub(crate) fn open(alloc: Global, schema: Enablings) -> Result<Session<Enablings>, StartFault>
    requires { schema ≡ demonstrated }
    ensures session { IfOk result (λ s. IsDemonstrated s) }
    ensures four { IfOk result (λ s. length s.cpus.items ≡ 4) }
    ensures room { IfOk result (λ s. HaveRoom s.cpus.items) }
    ensures fresh { IfOk result (λ s. HaveOffered 0 s.cpus.items) }
    ensures unused { IfOk result (λ s. AreFresh s.cpus.items) }
{
    Session::start(alloc, &demo_config(), schema)
}
