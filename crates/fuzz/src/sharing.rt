use dspec_deeds::Config;
use dspec_record::Enablings;
use dspec_samples::Log;
use dspec_word::SpecId;
use std::alloc::{AllocError, Global};
use std::sync::Mutex;
use std::sync::atomic::{AtomicU64, Ordering};

/// What the threads share beside the session: the identifiers that anybody may speculate to or decide, how far they are, and what
/// they leave.
#[derive(Drop)]
pub struct SharedState {
    pub schema: Enablings,
    /// An identifier at each place, or 0.
    places: Vec<AtomicU64>,
    /// How many workers are there.
    come: AtomicU64,
    /// How many workers have ended.
    gone: AtomicU64,
    /// How many calls they made.
    made: AtomicU64,
    /// The log of each worker, once it has ended.
    pub logs: Vec<Mutex<Log>>,
}

impl SharedState {
    /// A board with so many places, none of them taken.
    pub fn new(
        alloc: Global,
        config: &Config,
        schema: Enablings,
        count: u32,
    ) -> Result<SharedState, AllocError> {
        let mut places = Vec::new(alloc);
        for _ in 0..count {
            places.push(AtomicU64::new(0))?;
        }
        let mut logs = Vec::new(alloc);
        for _ in 0..config.cpus {
            let mut missing = Log::new(alloc);
            missing.torn = true;
            logs.push(Mutex::new(missing))?;
        }
        Ok(SharedState {
            schema,
            places,
            come: AtomicU64::new(0),
            gone: AtomicU64::new(0),
            made: AtomicU64::new(0),
            logs,
        })
    }

    /// The identifier at a place, if there is one.
    pub fn look(&self, place: u32) -> Option<SpecId> {
        let raw = self.places.get(place as usize)?.load(Ordering::SeqCst);
        if raw == 0 {
            return None;
        }
        Some(SpecId::from_raw(raw))
    }

    /// Puts an identifier at a place, and gives the one that stood there.
    pub fn put(&self, place: u32, id: SpecId) -> Option<SpecId> {
        let raw = self
            .places
            .get(place as usize)?
            .swap(id.raw(), Ordering::SeqCst);
        if raw == 0 {
            return None;
        }
        Some(SpecId::from_raw(raw))
    }

    /// Takes an identifier off the place; false where it doesn't stand there any more.
    pub fn withdraw(&self, place: u32, id: SpecId) -> bool {
        let Some(word) = self.places.get(place as usize) else {
            return false;
        };
        word.compare_exchange(id.raw(), 0, Ordering::SeqCst, Ordering::SeqCst)
            .is_ok()
    }

    /// Takes an identifier off all places.
    pub fn clear(&self, id: SpecId) {
        for word in &self.places {
            if word.load(Ordering::SeqCst) == id.raw() {
                let _ = word.compare_exchange(id.raw(), 0, Ordering::SeqCst, Ordering::SeqCst);
            }
        }
    }

    /// A worker comes, and says so.
    pub fn come(&self) {
        self.come.fetch_add(1, Ordering::SeqCst);
    }

    /// Whether so many workers have come.
    pub fn is_complete(&self, workers: u64) -> bool {
        self.come.load(Ordering::SeqCst) >= workers
    }

    /// Nobody waits any more until so many workers have come.
    pub fn give_up(&self, workers: u64) {
        self.come.store(workers, Ordering::SeqCst);
    }

    /// A worker has made a call.
    pub fn count(&self) {
        self.made.fetch_add(1, Ordering::SeqCst);
    }

    /// How many calls were made.
    pub fn made(&self) -> u64 {
        self.made.load(Ordering::SeqCst)
    }

    /// A worker leaves its log, and goes.
    pub fn leave(&self, worker: u32, log: Log) {
        if let Some(place) = self.logs.get(worker as usize) {
            if let Some(mut guard) = place.try_lock() {
                *guard = log;
            }
        }
        self.gone.fetch_add(1, Ordering::SeqCst);
    }

    /// Whether so many workers have gone.
    pub fn is_empty(&self, workers: u64) -> bool {
        self.gone.load(Ordering::SeqCst) >= workers
    }
}
