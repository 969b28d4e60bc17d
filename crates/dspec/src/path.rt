ghost use Rattle.std.specs.Prelude.{◌≡◌, IfErr};
ghost use Rattle.dspec_promise.specs.Promise.{commit, discard};
ghost use Rattle.dspec.specs.{LaneCalls.EndIfRoomOn, LaneCalls.EndOn, LaneCalls.OpeningOn, LaneCalls.PathDropsOn, LaneCalls.PathRecordOn, Lanes.place_of};

use crate::bad_record::BadRecord;
use crate::lane::Lane;
use dspec_cpu::{Cpu, Listed};
use dspec_deeds::{Decided, Opening, Spoken};
use dspec_record::Schema;

/// A speculation that isn't decided yet. It can't be let go: who has it keeps it or throws it away, so that none stays open by
/// mistake, or hands it on as a word (`hand`, `take`). Any lane of the session may take its steps. Where none was given, what is
/// offered to it is void, as with the identifier 0 of the Guide.
#[derive(Debug)]
pub struct Path {
    pub(crate) opening: Opening,
}

impl Path {
    /// The answer to its opening: its identifier, or why there is none.
    #[inline]
    pub fn opening(&self) -> Opening
        ensures { result ≡ self.now.opening }
    {
        self.opening
    }

    /// Offers a record. An `Err`, and nothing was done: there are more than eight values, or the schema doesn't accept the record.
    #[inline]
    pub fn record<S: Schema>(
        &self,
        lane: &mut Lane<'_, S>,
        epid: u32,
        stamp: u64,
        values: &[u64],
    ) -> Result<Spoken, BadRecord>
        ensures same { place_of lane.new ≡ place_of lane.old }
        ensures does { PathRecordOn ⟦<Cpu<S> as Listed>⟧.has_list S.accepted self.now epid stamp values.now result lane.old lane.new }
    {
        lane.offer(self.opening.id(), epid, stamp, values)
    }

    /// How many of the lane's records were dropped because its buffer of the path was full: where there are any, its end of the
    /// path is cut. As `Lane::dropped_in`.
    #[inline]
    pub fn dropped<S: Schema>(&self, lane: &Lane<'_, S>) -> u32
        ensures { PathDropsOn ⟦<Cpu<S> as Listed>⟧.has_list self.now result lane.now }
    {
        lane.dropped_in(self.opening.id())
    }

    /// Keeps what was offered: the speculation is committed.
    #[inline]
    pub fn commit<S: Schema>(self, lane: &mut Lane<'_, S>) -> Decided
        ensures same { place_of lane.new ≡ place_of lane.old }
        ensures does { EndOn ⟦<Cpu<S> as Listed>⟧.has_list commit self result lane.old lane.new }
    {
        let Path { opening } = self;
        lane.commit(opening.id())
    }

    /// Keeps what was offered, but not where the CPU's own block of it would be lost: then the path comes back as it was, and nothing
    /// was done.
    #[inline]
    pub fn commit_if_room<S: Schema>(self, lane: &mut Lane<'_, S>) -> Result<Decided, Path>
        ensures same { place_of lane.new ≡ place_of lane.old }
        ensures does { EndIfRoomOn ⟦<Cpu<S> as Listed>⟧.has_list S.shape_of self result lane.old lane.new }
        ensures back { IfErr result (λ path. path ≡ self) }
    {
        let Some(decided) = lane.commit_if_room(self.opening.id()) else {
            return Err(self);
        };
        let Path { opening: _ } = self;
        Ok(decided)
    }

    /// Throws away what was offered: the speculation is discarded.
    #[inline]
    pub fn discard<S: Schema>(self, lane: &mut Lane<'_, S>) -> Decided
        ensures same { place_of lane.new ≡ place_of lane.old }
        ensures does { EndOn ⟦<Cpu<S> as Listed>⟧.has_list discard self result lane.old lane.new }
    {
        let Path { opening } = self;
        lane.discard(opening.id())
    }
}

impl<'a, S: Schema> Lane<'a, S> {
    /// Opens a speculation as a path, which has to be kept or thrown away. Its `opening` says whether one was given.
    #[inline]
    pub fn path(&mut self) -> Path
        ensures same { place_of self.new ≡ place_of self.old }
        ensures does { OpeningOn ⟦<Cpu<S> as Listed>⟧.has_list result.opening self.old self.new }
    {
        Path {
            opening: self.speculation(),
        }
    }
}
