ghost use Rattle.std.specs.Prelude.{◌≡◌};

use dspec_deeds::{Config, Policy};
use dspec_record::{Enablings, Field, SchemaFault};

/// So many CPUs, speculations and bytes of buffers, with eight issues of a slot and a hundred calls of a CPU.
pub fn sized(cpus: u32, nspec: u32, bufsize: u32, specsize: u32) -> Config
    ensures sizes { (result.cpus ≡ cpus) × (result.nspec ≡ nspec) }
    ensures issues { result.max_issues ≡ 8 }
{
    Config {
        cpus,
        nspec,
        bufsize,
        specsize,
        max_issues: 8,
        max_calls: 100,
        policy: Policy::Switch,
    }
}

/// The enablings 1 none, 2 [8], 3 [1, 2], 4 [4].
pub fn four_enablings() -> Result<Enablings, SchemaFault> {
    let mut enablings = Enablings::new();
    enablings.enable(&[])?;
    enablings.enable(&[Field::Eight])?;
    enablings.enable(&[Field::One, Field::Two])?;
    enablings.enable(&[Field::Four])?;
    Ok(enablings)
}
