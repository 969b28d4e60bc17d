ghost use Rattle.std.specs.Prelude.{◌≡◌, [], ◌∷◌, ◌++◌, false};

use dspec_deeds::{Answer, CpuOp, Decided, Opening, Served, Spoken, Traced};
use dspec_interleaving::Series;
use std::alloc::Global;

/// A call of a CPU, and what it answered.
#[derive(Clone, Copy, Debug, PartialEq, Eq)]
pub struct LoggedCall {
    pub op: CpuOp,
    pub answer: Answer,
}

/// The calls of a CPU, in order.
#[derive(Debug, Drop)]
pub struct Log {
    pub calls: Series<LoggedCall>,
    /// Whether a call found no room here.
    pub torn: bool,
}

impl Log {
    /// The log before the first call.
    pub fn new(alloc: Global) -> Log
        ensures calls { result.calls ≡ [] }
        ensures whole { result.torn ≡ false }
    {
        Log {
            calls: Series::new(alloc),
            torn: false,
        }
    }

    /// A call more. Where there is no room for it, the log is torn.
    pub fn note(&mut self, op: CpuOp, answer: Answer)
        ensures noted { self.new.torn ≡ false → self.new.calls ≡ self.old.calls ++ (record { op = op; answer = answer } ∷ []) }
        ensures torn { self.new.torn ≡ false → self.old.torn ≡ false }
    {
        // Named so that the check of this function knows each type that a call and its answer hold.
        let _held: (
            Option<Opening>,
            Option<Spoken>,
            Option<Traced>,
            Option<Decided>,
            Option<Served>,
        ) = (None, None, None, None, None);
        if self.calls.push(LoggedCall { op, answer }).is_err() {
            self.torn = true;
        }
    }
}
