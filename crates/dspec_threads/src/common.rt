ghost use Rattle.std.specs.{Arc.arc_value, Prelude.◌≡◌, Prelude.IfErr, Prelude.IfOk, Prelude.false, Prelude.true};

use dspec_cpu::Shared;
use std::alloc::{AllocError, Global};
use std::sync::Arc;

/// What the lanes of a session share, as the session has it.
#[derive(Drop)]
pub(crate) struct Common {
    shared: Arc<Shared, Global>,
    held: bool,
}

impl Common {
    /// Nobody else has it yet.
    pub(crate) fn of(alloc: Global, shared: Shared) -> Result<Common, AllocError>
        ensures shared { IfOk result (λ r. arc_value r.shared ≡ shared) }
        ensures free { IfOk result (λ r. r.held ≡ false) }
    {
        let Ok(shared) = Arc::new(alloc, shared) else {
            return Err(AllocError);
        };
        Ok(Common {
            shared,
            held: false,
        })
    }

    /// It, for a call.
    pub(crate) fn words(&self) -> &Shared
        ensures { result.now ≡ arc_value self.now.shared }
    {
        &self.shared
    }

    /// It, for a lane.
    pub(crate) fn share(&self) -> Result<Arc<Shared, Global>, AllocError>
        ensures { IfOk result (λ c. arc_value c ≡ arc_value self.now.shared) }
    {
        Arc::try_clone(&self.shared)
    }

    /// It alone, when no lane has it any more. Where somebody has it this is what it was, and `held` says so: nothing else sets that.
    pub(crate) fn take(self) -> Result<Shared, Common>
        ensures ok { IfOk result (λ s. s ≡ arc_value self.shared) }
        ensures err { IfErr result (λ r. (r.shared ≡ self.shared) × (r.held ≡ true)) }
    {
        let Common { shared, held: _ } = self;
        match Arc::try_unwrap(shared) {
            Ok(shared) => Ok(shared),
            Err(shared) => Err(Common { shared, held: true }),
        }
    }
}
