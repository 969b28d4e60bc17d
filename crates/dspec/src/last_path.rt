ghost use Rattle.std.specs.Prelude.{◌≡◌, IsTrue};
ghost use Rattle.dspec_record.specs.LaidOut.{IsLaidBy};
ghost use Rattle.dspec_deeds.specs.declared.calls.Opening.TheVariants as opening;
ghost use Rattle.dspec_promise.specs.Promise.{commit, discard};
ghost use Rattle.dspec_cpu.specs.Lists.{schema_of};
ghost use Rattle.dspec.specs.{LaneCalls.OpeningOn, Lanes.place_of, LastPaths.DecidesIfThere, LastPaths.FollowsOn, LastPaths.LastEndOn, LastPaths.LastRecordOn, LastPaths.LastValuesOn};
ghost use Rattle.dspec.specs.{LastPaths.OffersNextOn, LastPaths.SettlesOn, LastPaths.TurnsOn, LastPaths.path_begun, LastPaths.records_thrown};

use crate::bad_record::BadRecord;
use crate::lane::Lane;
use dspec_cpu::{Cpu, Listed};
use dspec_deeds::{Decided, Opening, Spoken};
use dspec_record::{Recorded, Schema};
use dspec_word::SpecId;

/// A path that keeps its last records, not its first, where it has more than fit: it goes over two speculations. A record for which the
/// newer one has no room goes into a new one, and then the older one is thrown away. So it keeps as many records as one buffer holds, and
/// at the most twice as many.
///
/// A new speculation is opened before anything is thrown away, so a path that turns takes a third slot for a moment. Where none is free, or
/// the record is larger than a buffer, the record is dropped and the path stays as it is.
///
/// A record that turns a path is offered twice, and the reports count so: `offered` and `specdropped` are more by one.
///
/// As a `Path` it can't be let go: who has it keeps it or throws it away.
#[derive(Debug)]
pub struct LastPath {
    pub(crate) older: Option<SpecId>,
    pub(crate) newer: Opening,
    pub(crate) cut: u32,
}

impl LastPath {
    /// The answer to the opening of its newer speculation. Where none was given at its beginning, that is why, and what is offered is void.
    #[inline]
    pub fn opening(&self) -> Opening
        ensures { result ≡ self.now.newer }
    {
        self.newer
    }

    /// How many records at its beginning were thrown away for those after them, as the answers to the discards tell.
    #[inline]
    pub fn cut(&self) -> u32
        ensures { result ≡ self.now.cut }
    {
        self.cut
    }

    /// Offers a record. An `Err`, and nothing was done: there are more than eight values, or the schema doesn't accept the record.
    #[inline]
    pub fn record<S: Schema>(
        &mut self,
        lane: &mut Lane<'_, S>,
        epid: u32,
        stamp: u64,
        values: &[u64],
    ) -> Result<Spoken, BadRecord>
        ensures does { LastValuesOn ⟦<Cpu<S> as Listed>⟧.has_list S.accepted epid stamp values.now result self.old self.new lane.old lane.new }
        ensures same { place_of lane.new ≡ place_of lane.old }
    {
        let Some(rec) = lane.schema().borrowed(epid, stamp, values) else {
            return Err(BadRecord);
        };
        Ok(self.offer_recorded(lane, rec))
    }

    /// Offers what can be traced as a record.
    #[inline(always)]
    pub fn offer_recorded<S: Schema, R: Recorded>(
        &mut self,
        lane: &mut Lane<'_, S>,
        rec: R,
    ) -> Spoken
        requires accepted { IsTrue (S.accepted (schema_of lane.old.cpu.now) (R.as_record rec)) }
        requires laid { IsLaidBy (S.shape_of (schema_of lane.old.cpu.now)) (S.text (schema_of lane.old.cpu.now)) (R.as_record rec) (R.laid_as rec) }
        ensures same { place_of lane.new ≡ place_of lane.old }
        ensures does { LastRecordOn ⟦<Cpu<S> as Listed>⟧.has_list (R.as_record rec) result self.old self.new lane.old lane.new }
    {
        let first = lane.speculate_recorded(self.newer.id(), rec);
        self.follow(lane, rec, first)
    }

    // The newer speculation answered so to a record.
    #[inline(always)]
    fn follow<S: Schema, R: Recorded>(
        &mut self,
        lane: &mut Lane<'_, S>,
        rec: R,
        first: Spoken,
    ) -> Spoken
        requires accepted { IsTrue (S.accepted (schema_of lane.old.cpu.now) (R.as_record rec)) }
        requires laid { IsLaidBy (S.shape_of (schema_of lane.old.cpu.now)) (S.text (schema_of lane.old.cpu.now)) (R.as_record rec) (R.laid_as rec) }
        ensures same { place_of lane.new ≡ place_of lane.old }
        ensures does { FollowsOn ⟦<Cpu<S> as Listed>⟧.has_list first (R.as_record rec) result self.old self.new lane.old lane.new }
    {
        match first {
            Spoken::Dropped => self.turn(lane, rec),
            Spoken::Kept | Spoken::Void | Spoken::Stopped | Spoken::Worn => first,
        }
    }

    // The newer speculation has no room for a record.
    #[cold]
    fn turn<S: Schema, R: Recorded>(&mut self, lane: &mut Lane<'_, S>, rec: R) -> Spoken
        requires accepted { IsTrue (S.accepted (schema_of lane.old.cpu.now) (R.as_record rec)) }
        requires laid { IsLaidBy (S.shape_of (schema_of lane.old.cpu.now)) (S.text (schema_of lane.old.cpu.now)) (R.as_record rec) (R.laid_as rec) }
        ensures same { place_of lane.new ≡ place_of lane.old }
        ensures turns { TurnsOn ⟦<Cpu<S> as Listed>⟧.has_list (R.as_record rec) result self.old self.new lane.old lane.new }
    {
        let opening = lane.speculation();
        self.offer_next(lane, rec, opening)
    }

    // A new speculation was asked for, with this answer.
    fn offer_next<S: Schema, R: Recorded>(
        &mut self,
        lane: &mut Lane<'_, S>,
        rec: R,
        opening: Opening,
    ) -> Spoken
        requires accepted { IsTrue (S.accepted (schema_of lane.old.cpu.now) (R.as_record rec)) }
        requires laid { IsLaidBy (S.shape_of (schema_of lane.old.cpu.now)) (S.text (schema_of lane.old.cpu.now)) (R.as_record rec) (R.laid_as rec) }
        ensures same { place_of lane.new ≡ place_of lane.old }
        ensures offers { OffersNextOn ⟦<Cpu<S> as Listed>⟧.has_list opening (R.as_record rec) result self.old self.new lane.old lane.new }
    {
        match opening {
            Opening::Id(id) => {
                let answer = lane.speculate_recorded(id, rec);
                self.settle(lane, id, answer);
                answer
            }
            Opening::Unavailable | Opening::Busy | Opening::Stopped | Opening::Worn => {
                Spoken::Dropped
            }
        }
    }

    // A new speculation answered so to a record.
    fn settle<S: Schema>(&mut self, lane: &mut Lane<'_, S>, id: SpecId, answer: Spoken)
        ensures same { place_of lane.new ≡ place_of lane.old }
        ensures settles { SettlesOn ⟦<Cpu<S> as Listed>⟧.has_list answer (opening.Id id) self.old self.new lane.old lane.new }
    {
        match answer {
            Spoken::Kept => {
                let gone = discard_if_there(lane, self.older);
                self.cut = self.cut.saturating_add(thrown_by(gone));
                self.older = Some(self.newer.id());
                self.newer = Opening::Id(id);
            }
            Spoken::Dropped | Spoken::Void | Spoken::Stopped | Spoken::Worn => {
                lane.discard(id);
            }
        }
    }

    /// Keeps its last records: the newer speculation is committed, and then the older where there is one, so that where the principal
    /// buffer has room for one alone the path's last records are kept. Both answers, the older one's first. In the trace the older
    /// records stand after the newer.
    #[inline]
    pub fn commit<S: Schema>(self, lane: &mut Lane<'_, S>) -> (Option<Decided>, Decided)
        ensures same { place_of lane.new ≡ place_of lane.old }
        ensures does { LastEndOn ⟦<Cpu<S> as Listed>⟧.has_list commit self result.0 result.1 lane.old lane.new }
    {
        let LastPath {
            older,
            newer,
            cut: _,
        } = self;
        let last = lane.commit(newer.id());
        (commit_if_there(lane, older), last)
    }

    /// Throws away what was offered: both speculations are discarded. Both answers, the older one's first.
    #[inline]
    pub fn discard<S: Schema>(self, lane: &mut Lane<'_, S>) -> (Option<Decided>, Decided)
        ensures same { place_of lane.new ≡ place_of lane.old }
        ensures does { LastEndOn ⟦<Cpu<S> as Listed>⟧.has_list discard self result.0 result.1 lane.old lane.new }
    {
        let LastPath {
            older,
            newer,
            cut: _,
        } = self;
        let last = lane.discard(newer.id());
        (discard_if_there(lane, older), last)
    }
}

// How many records a discard threw away, where there was one.
fn thrown_by(gone: Option<Decided>) -> u32
    ensures { result ≡ records_thrown gone }
{
    match gone {
        Some(Decided::Thrown(count)) => count,
        Some(
            Decided::Copied(_)
            | Decided::Lost(_)
            | Decided::Void
            | Decided::Stopped
            | Decided::Worn,
        )
        | None => 0,
    }
}

fn commit_if_there<S: Schema>(lane: &mut Lane<'_, S>, id: Option<SpecId>) -> Option<Decided>
    ensures same { place_of lane.new ≡ place_of lane.old }
    ensures does { DecidesIfThere ⟦<Cpu<S> as Listed>⟧.has_list commit id result lane.old lane.new }
{
    match id {
        Some(id) => Some(lane.commit(id)),
        None => None,
    }
}

fn discard_if_there<S: Schema>(lane: &mut Lane<'_, S>, id: Option<SpecId>) -> Option<Decided>
    ensures same { place_of lane.new ≡ place_of lane.old }
    ensures does { DecidesIfThere ⟦<Cpu<S> as Listed>⟧.has_list discard id result lane.old lane.new }
{
    match id {
        Some(id) => Some(lane.discard(id)),
        None => None,
    }
}

impl<'a, S: Schema> Lane<'a, S> {
    /// Opens a path that keeps its last records, and has to be kept or thrown away. Its `opening` says whether a speculation was given.
    #[inline]
    pub fn last_path(&mut self) -> LastPath
        ensures same { place_of self.new ≡ place_of self.old }
        ensures does { OpeningOn ⟦<Cpu<S> as Listed>⟧.has_list result.newer self.old self.new }
        ensures begun { result ≡ path_begun result.newer }
    {
        LastPath {
            older: None,
            newer: self.speculation(),
            cut: 0,
        }
    }
}
