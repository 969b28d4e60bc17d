ghost use Rattle.std.specs.Prelude.{◌≡◌, IfNone, IfSome, None, slice_get, Some};
ghost use Rattle.dspec_paths.specs.{Counts.counted_begin, Counts.counted_in, Open.places_of, Table.AllTaken, Table.BeginsPath, Table.BeginsIn};

use crate::open_path::OpenPath;
use crate::path_key::PathKey;
use crate::paths::Paths;
use crate::speculation_calls::SpeculationCalls;
use dspec_deeds::Opening;
use dspec_word::SpecId;

impl Paths {
    /// The first place that is free.
    fn free_place(&self) -> Option<u32>
        ensures free { IfSome result (λ i. slice_get (places_of self.now) i ≡ Some None) }
        ensures none { IfNone result (AllTaken (places_of self.now)) }
    {
        let place = self.places.iter().position(|path| path.is_none())?;
        Some(place as u32)
    }

    /// A place that is free: that of a speculation's slot where it is, since no other open path has that slot as a rule.
    #[inline]
    fn place_for(&self, id: SpecId) -> Option<u32>
        ensures free { IfSome result (λ i. slice_get (places_of self.now) i ≡ Some None) }
        ensures none { IfNone result (AllTaken (places_of self.now)) }
    {
        let own = id.slot();
        if let Some(None) = self.places.get(own as usize) {
            return Some(own);
        }
        self.free_place()
    }

    /// A path begins, in a speculation that is opened for it. None: no speculation was to be had, or `MAX_PATHS` are open.
    pub fn begin<B: SpeculationCalls>(
        &mut self,
        cpu: &mut B,
        number: u32,
        thread: u32,
        stamp: u64,
    ) -> Option<PathKey>
        ensures same { B.identity cpu.new ≡ B.identity cpu.old }
        ensures begins { BeginsPath B.made B.asked number thread stamp result cpu.old cpu.new (places_of self.old) (places_of self.new) }
        ensures counted { counted_in self.new ≡ counted_begin result (counted_in self.old) }
    {
        match cpu.speculation() {
            Opening::Id(id) => self.begin_in(cpu, id, number, thread, stamp),
            Opening::Unavailable | Opening::Busy | Opening::Stopped | Opening::Worn => None,
        }
    }

    // A speculation was opened for it.
    fn begin_in<B: SpeculationCalls>(
        &mut self,
        cpu: &mut B,
        id: SpecId,
        number: u32,
        thread: u32,
        stamp: u64,
    ) -> Option<PathKey>
        ensures same { B.identity cpu.new ≡ B.identity cpu.old }
        ensures alone { IfSome result (λ _. cpu.new ≡ cpu.old) }
        ensures begins { BeginsIn id number thread stamp result (B.made cpu.old) (B.made cpu.new) (places_of self.old) (places_of self.new) }
        ensures counted { counted_in self.new ≡ counted_begin result (counted_in self.old) }
    {
        let Some(place) = self.place_for(id) else {
            cpu.discard(id);
            return None;
        };
        let path = OpenPath {
            number,
            thread,
            begun: stamp,
            newest: id,
            older: None,
            is_kept: false,
            cut: 0,
        };
        self.put(place, Some(path));
        self.counts.add_begun();
        Some(PathKey { place, newest: id })
    }
}
