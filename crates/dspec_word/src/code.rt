ghost use Rattle.std.specs.Prelude.{◌≡◌};
ghost use Rattle.dspec_word.specs.Code.{code_number, code_of};

/// Where the present speculation of a slot stands. The states are those of DTrace's kernel; the
/// Solaris Dynamic Tracing Guide, "Speculative Tracing", says what may be done in them.
#[derive(Clone, Copy, Debug, PartialEq, Eq, PartialOrd, Ord, Hash)]
pub enum Code {
    /// Not given out.
    Inactive,
    /// Given out, and no CPU is a caller yet.
    Active,
    /// Exactly one CPU is a caller.
    ActiveOne,
    /// Several CPUs are callers.
    ActiveMany,
    /// Committed with no caller but the committing CPU, which is about to release the slot.
    Committing,
    /// Committed, and the CPUs still have to copy what they hold.
    CommittingMany,
    /// Discarded, and the CPUs still have to throw away what they hold.
    Discarding,
}

impl Code {
    #[inline]
    pub(crate) fn number(self) -> u64
        ensures { result ≡ code_number self }
    {
        self as u64
    }

    #[inline]
    pub(crate) fn of_number(number: u64) -> Code
        ensures { result ≡ code_of number }
    {
        match number {
            0 => Code::Inactive,
            1 => Code::Active,
            2 => Code::ActiveOne,
            3 => Code::ActiveMany,
            4 => Code::Committing,
            5 => Code::CommittingMany,
            _ => Code::Discarding,
        }
    }
}
