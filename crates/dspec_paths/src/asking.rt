ghost use Rattle.std.specs.Prelude.{◌≡◌, ◌<◌, IfNone, IfOk, IfSome, None, replicate, slice_set};
ghost use Rattle.dspec_paths.specs.{Counts.counted_in, Counts.no_counts, Open.places_of, Table.AdoptsPath, Table.IsNamed, Table.IsUndecided, Table.NoneNamed, Table.NoneUndecided, Table.path_at};

use crate::open_path::OpenPath;
use crate::path_counts::PathCounts;
use crate::path_key::PathKey;
use crate::paths::{MAX_PATHS, Paths};
use std::alloc::{AllocError, Global};

impl Paths {
    /// No path is open, and none has begun.
    pub fn new() -> Paths
        ensures none { places_of result ≡ replicate 64 None }
        ensures counted { counted_in result ≡ no_counts }
    {
        Paths {
            places: [None; MAX_PATHS],
            counts: PathCounts::none(),
        }
    }

    /// The same in a box, which takes all the memory that a table ever takes.
    pub fn boxed(alloc: Global) -> Result<Box<Paths>, AllocError>
        ensures none { IfOk result (λ b. places_of b.value ≡ replicate 64 None) }
        ensures counted { IfOk result (λ b. counted_in b.value ≡ no_counts) }
    {
        let Ok(made) = Box::new(alloc, Paths::new()) else {
            return Err(AllocError);
        };
        Ok(made)
    }

    /// The path that is open at a place, of which there are `MAX_PATHS`, from 0 on.
    #[inline]
    pub fn open_at(&self, place: u32) -> Option<OpenPath>
        ensures { result ≡ path_at place (places_of self.now) }
    {
        match self.places.get(place as usize) {
            Some(path) => *path,
            None => None,
        }
    }

    /// The open path of this name.
    #[inline]
    pub fn named(&self, key: &PathKey) -> Option<OpenPath>
        ensures there { IfSome result (λ p. IsNamed key.now (places_of self.now) p) }
        ensures none { IfNone result (NoneNamed key.now (places_of self.now)) }
    {
        let path = self.open_at(key.place)?;
        if path.newest != key.newest {
            return None;
        }
        Some(path)
    }

    /// The open path of this name, where it isn't decided yet.
    #[inline]
    pub(crate) fn undecided(&self, key: &PathKey) -> Option<OpenPath>
        ensures there { IfSome result (λ p. IsUndecided key.now (places_of self.now) p) }
        ensures none { IfNone result (NoneUndecided key.now (places_of self.now)) }
    {
        let path = self.named(key)?;
        if path.is_kept {
            return None;
        }
        Some(path)
    }

    /// How many paths began, and what became of those that are over.
    #[inline]
    pub fn counts(&self) -> PathCounts
        ensures { result ≡ counted_in self.now }
    {
        self.counts
    }

    /// Has a path, or none, at a place.
    #[inline]
    pub(crate) fn put(&mut self, place: u32, path: Option<OpenPath>)
        requires { place < 64 }
        ensures put { places_of self.new ≡ slice_set (places_of self.old) place path }
        ensures counted { counted_in self.new ≡ counted_in self.old }
    {
        self.places[place as usize] = path;
    }

    /// A path is this thread's from now on: whether one of this name is open.
    pub fn adopt(&mut self, key: &PathKey, thread: u32) -> bool
        ensures adopts { AdoptsPath key.now thread result (places_of self.old) (places_of self.new) }
        ensures counted { counted_in self.new ≡ counted_in self.old }
    {
        let Some(path) = self.named(key) else {
            return false;
        };
        let adopted = OpenPath { thread, ..path };
        self.put(key.place, Some(adopted));
        true
    }
}
