ghost use Rattle.std.specs.{Arc.arc_value, Prelude.◌≡◌, Prelude.◌<◌, Prelude.◌∷◌, Prelude.length, Prelude.map, Prelude.IfOk};
ghost use Rattle.dspec_cpu.specs.Standing.{IsCallable};
ghost use Rattle.dspec_c.specs.Whole.{AllCalled, waiting_so};

use crate::cpu_place::CpuPlace;
use crate::home_cpu::HomeCpu;
use crate::homing::Homing;
use dspec_cpu::{Cpu, Shared};
use dspec_record::Enablings;
use std::alloc::{AllocError, Global};
use std::sync::Arc;

/// Takes the first.
pub fn take_first<T>(xs: &mut Vec<T>) -> T
    requires { 0 < length xs.old.items }
    ensures cons { xs.old.items ≡ result ∷ xs.new.items }
{
    xs.remove(0)
}

// The first CPU, in a box.
#[inline(never)]
fn next_cpu(
    alloc: Global,
    cpus: &mut Vec<Cpu<Enablings>>,
) -> Result<Box<Cpu<Enablings>>, AllocError>
    requires { 0 < length cpus.old.items }
    ensures cons { IfOk result (λ cpu. cpus.old.items ≡ cpu.value ∷ cpus.new.items) }
{
    let Ok(cpu) = Box::new(alloc, take_first(cpus)) else {
        return Err(AllocError);
    };
    Ok(cpu)
}

fn place(
    alloc: Global,
    shared: &Arc<Shared, Global>,
    cpu: Box<Cpu<Enablings>>,
) -> Result<CpuPlace, AllocError>
    requires { IsCallable (arc_value shared.now) cpu.value }
    ensures { IfOk result (λ r. r ≡ waiting_so (arc_value shared.now) cpu.value) }
{
    let shared = Arc::try_clone(shared)?;
    CpuPlace::make(alloc, Homing::of(shared, HomeCpu { cpu, refused: 0 }))
}

/// The places of all CPUs, in order, with the CPUs in them, which wait.
pub fn places(
    alloc: Global,
    shared: &Arc<Shared, Global>,
    cpus: Vec<Cpu<Enablings>>,
) -> Result<Vec<CpuPlace>, AllocError>
    requires { AllCalled (arc_value shared.now) cpus.items }
    ensures { IfOk result (λ r. r.items ≡ map (waiting_so (arc_value shared.now)) cpus.items) }
{
    let mut rest = cpus;
    let mut places = Vec::with_capacity(alloc, rest.len())?;
    while !rest.is_empty() {
        let cpu = next_cpu(alloc, &mut rest)?;
        let place = place(alloc, shared, cpu)?;
        places.push(place)?;
    }
    Ok(places)
}
