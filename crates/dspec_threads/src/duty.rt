use dspec_cpu::Cpu;
use dspec_record::Enablings;
use rtrb::Protocol;
use std::marker::PhantomData;

/// What has been done with a lane that is given back, for a program that proves why: the close has it of each CPU. Others take
/// `Anything`.
pub trait Duty {
    ghost use Rattle.std.specs.Prelude.{ℕ};
    ghost use Rattle.dspec_cpu.specs.Called.{CallsMade};

    // What the calls of the CPU with this number have done. Whoever promises nothing of it leaves it out.
    ghost done: { ℕ → CallsMade → Type 0 } = { λ _ _. Unit {0} };
}

/// Anything may have been done with a lane, and anything be said of a path.
#[derive(Clone, Copy, Debug)]
pub struct Anything;

impl Duty for Anything {}

/// What comes home is the CPU that went through the ring first, and its duty is done.
pub struct HomeRule<D> {
    of: PhantomData<D>,
}

impl<D: Duty> Protocol<Cpu<Enablings>> for HomeRule<D> {
    ghost use Rattle.dspec_threads.specs.Homes.{ComesHome};

    ghost allows = { ComesHome D.done };
}
