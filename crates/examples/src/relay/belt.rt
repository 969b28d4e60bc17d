//! What goes from the first worker to the second: a word a request.

use dspec::Handed;
use std::alloc::{AllocError, Global};
use std::sync::atomic::{AtomicU64, Ordering};

/// How many requests there are.
pub const REQUESTS: usize = 400;

/// The words of all requests. 0 where the request wasn't handed on yet.
#[derive(Drop)]
pub struct Belt {
    words: Vec<AtomicU64>,
}

impl Belt {
    /// No request was handed on.
    pub fn new(alloc: Global) -> Result<Belt, AllocError> {
        let mut words = Vec::new(alloc);
        for _ in 0..REQUESTS {
            words.push(AtomicU64::new(0))?;
        }
        Ok(Belt { words })
    }

    /// Hands on the path of a request.
    pub fn put(&self, request: u32, path: Handed) {
        if let Some(word) = self.words.get(request as usize) {
            word.store(path.raw(), Ordering::SeqCst);
        }
    }

    /// The path of a request, where it was handed on.
    pub fn get(&self, request: u32) -> Option<Handed> {
        let word = self.words.get(request as usize)?.load(Ordering::SeqCst);
        if word == 0 {
            return None;
        }
        Some(Handed::from_raw(word))
    }
}
