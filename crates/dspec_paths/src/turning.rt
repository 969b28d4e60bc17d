ghost use Rattle.std.specs.Prelude.{◌≡◌, ◌<◌};
ghost use Rattle.dspec_paths.specs.{Counts.counted_in, Open.places_of, Table.DiscardsIfThere, Table.TurnsTo, Table.TurnsPath, Table.thrown};

use crate::ending::records_thrown;
use crate::open_path::OpenPath;
use crate::path_key::PathKey;
use crate::paths::Paths;
use crate::speculation_calls::SpeculationCalls;
use dspec_deeds::{Decided, Opening};
use dspec_word::SpecId;

/// Discards a speculation, where there is one.
#[inline(never)]
pub(crate) fn discard_if_there<B: SpeculationCalls>(
    cpu: &mut B,
    id: Option<SpecId>,
) -> Option<Decided>
    ensures same { B.identity cpu.new ≡ B.identity cpu.old }
    ensures gone { DiscardsIfThere id result (B.made cpu.old) (B.made cpu.new) }
{
    match id {
        Some(id) => Some(cpu.discard(id)),
        None => None,
    }
}

// How many records a discard threw away, where there was one.
fn thrown_with(gone: Option<Decided>) -> u32
    ensures { result ≡ thrown gone }
{
    match gone {
        Some(answer) => records_thrown(answer),
        None => 0,
    }
}

impl Paths {
    /// A path whose speculation is full goes on in a new one, which is the answer and its new name; the one before the full one is
    /// discarded. None: no path of this name is open and undecided, or no speculation was to be had; the path stays as it is.
    pub fn turn<B: SpeculationCalls>(&mut self, cpu: &mut B, key: &PathKey) -> Option<SpecId>
        ensures same { B.identity cpu.new ≡ B.identity cpu.old }
        ensures turns { TurnsPath B.made B.asked key.now result cpu.old cpu.new (places_of self.old) (places_of self.new) }
        ensures counted { counted_in self.new ≡ counted_in self.old }
    {
        let path = self.undecided(key)?;
        match cpu.speculation() {
            Opening::Id(id) => {
                self.turn_to(cpu, key, &path, id);
                Some(id)
            }
            Opening::Unavailable | Opening::Busy | Opening::Stopped | Opening::Worn => None,
        }
    }

    // It goes on in this one.
    fn turn_to<B: SpeculationCalls>(
        &mut self,
        cpu: &mut B,
        key: &PathKey,
        path: &OpenPath,
        id: SpecId,
    )
        requires { key.now.place < 64 }
        ensures same { B.identity cpu.new ≡ B.identity cpu.old }
        ensures turns { TurnsTo key.now path.now id (B.made cpu.old) (B.made cpu.new) (places_of self.old) (places_of self.new) }
        ensures counted { counted_in self.new ≡ counted_in self.old }
    {
        let gone = discard_if_there(cpu, path.older);
        let turned = OpenPath {
            newest: id,
            older: Some(path.newest),
            cut: path.cut.saturating_add(thrown_with(gone)),
            ..*path
        };
        self.put(key.place, Some(turned));
    }
}
