ghost use Rattle.std.specs.Prelude.{◌≡◌, length};
ghost use Rattle.dspec_paths.specs.{Counts.counted_in, Counts.KeptCounted, Counts.KeptOne, Counts.ThrownCounted, Every.DiscardsIfMeant, Every.EachOf, Every.KeepsIfMeant, Every.is_meant};
ghost use Rattle.dspec_paths.specs.{Every.meant_path, Open.places_of};

use crate::open_path::OpenPath;
use crate::path_key::PathKey;
use crate::paths::Paths;
use crate::speculation_calls::SpeculationCalls;
use crate::whose::WhosePaths;

/// Whether a thread's path is meant.
fn means(whose: WhosePaths, thread: u32) -> bool
    ensures { result ≡ is_meant whose thread }
{
    match whose {
        WhosePaths::All => true,
        WhosePaths::Thread(one) => one == thread,
    }
}

impl Paths {
    /// The path that is open at a place, where it is meant.
    #[inline]
    pub fn open_of(&self, place: u32, whose: WhosePaths) -> Option<OpenPath>
        ensures { result ≡ meant_path whose place (places_of self.now) }
    {
        let path = self.open_at(place)?;
        if !means(whose, path.thread) {
            return None;
        }
        Some(path)
    }

    /// Keeps the path at a place, where it is meant.
    fn keep_at<B: SpeculationCalls>(&mut self, cpu: &mut B, place: u32, whose: WhosePaths)
        ensures same { B.identity cpu.new ≡ B.identity cpu.old }
        ensures keeps { KeepsIfMeant whose place (B.made cpu.old) (B.made cpu.new) (places_of self.old) (places_of self.new) }
        ensures counted { KeptOne (places_of self.old) (places_of self.new) (counted_in self.old) (counted_in self.new) }
    {
        let Some(path) = self.open_at(place) else {
            return;
        };
        if means(whose, path.thread) {
            let key = PathKey {
                place,
                newest: path.newest,
            };
            self.keep(cpu, &key, false);
        }
    }

    /// Throws the path at a place away, where it is meant.
    fn discard_at<B: SpeculationCalls>(&mut self, cpu: &mut B, place: u32, whose: WhosePaths)
        ensures same { B.identity cpu.new ≡ B.identity cpu.old }
        ensures discards { DiscardsIfMeant whose place (B.made cpu.old) (B.made cpu.new) (places_of self.old) (places_of self.new) }
        ensures counted { ThrownCounted (places_of self.old) (places_of self.new) (counted_in self.old) (counted_in self.new) }
    {
        let Some(path) = self.open_at(place) else {
            return;
        };
        if means(whose, path.thread) {
            let key = PathKey {
                place,
                newest: path.newest,
            };
            self.discard(cpu, &key);
        }
    }

    /// Throws away the open paths of a thread, or all, place by place, but those that are decided already.
    pub fn discard_every<B: SpeculationCalls>(&mut self, cpu: &mut B, whose: WhosePaths)
        ensures same { B.identity cpu.new ≡ B.identity cpu.old }
        ensures discards { EachOf (DiscardsIfMeant whose) (length (places_of self.old)) (B.made cpu.old) (B.made cpu.new) (places_of self.old) (places_of self.new) }
        ensures counted { ThrownCounted (places_of self.old) (places_of self.new) (counted_in self.old) (counted_in self.new) }
    {
        for place in 0..self.places.len() {
            self.discard_at(cpu, place as u32, whose);
        }
    }

    /// Keeps the open paths of a thread, or all, place by place. What has no room is lost.
    pub fn keep_every<B: SpeculationCalls>(&mut self, cpu: &mut B, whose: WhosePaths)
        ensures same { B.identity cpu.new ≡ B.identity cpu.old }
        ensures keeps { EachOf (KeepsIfMeant whose) (length (places_of self.old)) (B.made cpu.old) (B.made cpu.new) (places_of self.old) (places_of self.new) }
        ensures counted { KeptCounted (places_of self.old) (places_of self.new) (counted_in self.old) (counted_in self.new) }
    {
        for place in 0..self.places.len() {
            self.keep_at(cpu, place as u32, whose);
        }
    }
}
