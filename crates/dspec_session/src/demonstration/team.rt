ghost use Rattle.std.specs.Prelude.{◌≡◌, ◌<◌, ◌≤◌, ◌+◌, ◌++◌, [], ◌∷◌, length, vec_len, vec_capacity};

use super::four::Four;
use dspec_cpu::Cpu;
use dspec_record::Enablings;

/// Takes the CPUs of a session of four out of their list, and leaves its room.
pub(crate) fn take_all(cpus: &mut Vec<Cpu<Enablings>>) -> Four<Cpu<Enablings>>
    requires { length cpus.old.items ≡ 4 }
    ensures all { cpus.old.items ≡ result.first ∷ result.second ∷ result.third ∷ result.fourth ∷ [] }
    ensures none { cpus.new.items ≡ [] }
    ensures room { 4 ≤ vec_capacity cpus.new }
{
    let first = cpus.remove(0);
    let second = cpus.remove(0);
    let third = cpus.remove(0);
    let fourth = cpus.remove(0);
    Four {
        first,
        second,
        third,
        fourth,
    }
}

// Puts one more at the end of a list that has room.
#[inline]
fn put(cpus: &mut Vec<Cpu<Enablings>>, cpu: Cpu<Enablings>)
    requires { vec_len cpus.old < vec_capacity cpus.old }
    ensures items { cpus.new.items ≡ cpus.old.items ++ cpu ∷ [] }
    ensures len { vec_len cpus.new ≡ vec_len cpus.old + 1 }
    ensures capacity { vec_capacity cpus.old ≤ vec_capacity cpus.new }
{
    cpus.push(cpu).unwrap();
}

/// Puts them back, in order.
pub(crate) fn put_all(
    cpus: &mut Vec<Cpu<Enablings>>,
    first: Cpu<Enablings>,
    second: Cpu<Enablings>,
    third: Cpu<Enablings>,
    fourth: Cpu<Enablings>,
)
    requires none { cpus.old.items ≡ [] }
    requires room { 4 ≤ vec_capacity cpus.old }
    ensures { cpus.new.items ≡ first ∷ second ∷ third ∷ fourth ∷ [] }
{
    put(cpus, first);
    put(cpus, second);
    put(cpus, third);
    put(cpus, fourth);
}
