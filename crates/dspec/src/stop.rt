use std::sync::atomic::{AtomicU64, Ordering};

/// A flag that ends work which has no end of its own: a sink or any thread sets it, and the workers' loops read it. Whoever sets or
/// reads it has a reference to it. Once it is set it stays set. No contract says so, since any thread may set it at any time; nor
/// that a work reads it, nor how soon a thread sees it. It touches no session: a worker that reads it decides what is open on its
/// lane, and returns. What stops a session for all that call it is `Consumer::stop`.
#[derive(Drop)]
pub struct Stop {
    word: AtomicU64,
}

impl Stop {
    /// It isn't set.
    pub fn new() -> Stop {
        Stop {
            word: AtomicU64::new(0),
        }
    }

    /// Sets it. A second time nothing changes.
    #[inline]
    pub fn set(&self) {
        self.word.store(1, Ordering::SeqCst);
    }

    /// Whether it was set: one load.
    #[inline]
    pub fn is_set(&self) -> bool {
        self.word.load(Ordering::SeqCst) == 1
    }
}
