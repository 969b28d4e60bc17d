ghost use Rattle.std.specs.Bool.{OnTrue, OnFalse};
ghost use Rattle.std.specs.Prelude.{◌≡◌, ◌≤◌, ◌&&◌, ◌<◌, not, true, ℕ, List, [], ◌∷◌, length, IsTrue, if◌then◌else◌};
ghost use Rattle.dspec_record.specs.LaidOut.{IsLaidBy};
ghost use Rattle.dspec_buffer.specs.Extent.{Piece, one, piece_fits};
ghost use Rattle.dspec_deeds.specs.{Legal.fits_principal, Legal.is_closed, declared.deed.Deed.Deed};
ghost use Rattle.dspec_cpu_state.specs.{Counting.counts_of, CpuStates.ShowsList, Showing.TellsSlotRoom};

use crate::cpu_state::CpuState;
use dspec_buffer::TraceBuffer;
use dspec_deeds::Config;
use dspec_record::{Recorded, Schema};
use dspec_word::SpecId;

/// Keeps a record in a principal buffer, where that isn't closed and the record fits.
#[inline]
pub(crate) fn keep_open<S: Schema, B: TraceBuffer<S>, R: Recorded>(
    active: &mut B,
    schema: &S,
    rec: R,
    closed: bool,
) -> bool
    requires accepted { IsTrue (S.accepted schema.now (R.as_record rec)) }
    requires laid { IsLaidBy (S.shape_of schema.now) (S.text schema.now) (R.as_record rec) (R.laid_as rec) }
    ensures size { B.capacity active.new ≡ B.capacity active.old }
    ensures answer { (ps : List Piece) → B.has active.old schema.now ps
        → result ≡ (piece_fits (S.shape_of schema.now) ps (one (R.as_record rec)) (B.capacity active.old) && not closed) }
    ensures kept { OnTrue result ((ps : List Piece) → B.has active.old schema.now ps → B.has active.new schema.now (one (R.as_record rec) ∷ ps)) }
    ensures refused { OnFalse result (active.new ≡ active.old) }
{
    if closed {
        return false;
    }
    active.push_recorded(schema, rec)
}

impl<B> CpuState<B> {
    /// Whether the active principal buffer takes nothing more but empty blocks: under Fill, once it has refused a reservation.
    #[inline]
    pub fn is_closed(&self, config: &Config) -> bool
        ensures { (c worn : ℕ) (p : List Deed) → self.now.counts ≡ counts_of config.now c worn p → result ≡ is_closed config.now c p }
    {
        config.policy.is_fill() && self.counts.drops > 0
    }

    /// Whether the active principal buffer would take a record.
    #[inline]
    pub fn fits<S: Schema, R: Recorded>(&self, config: &Config, schema: &S, rec: R) -> bool
    where
        B: TraceBuffer<S>,
        requires accepted { IsTrue (S.accepted schema.now (R.as_record rec)) }
        ensures { (c : ℕ) (p : List Deed) → ShowsList (λ b. B.has b schema.now) B.capacity config.now c p self.now
            → result ≡ fits_principal (S.shape_of schema.now) config.now c (one (R.as_record rec)) p }
    {
        // An accepted record has a shape. Told so, where nobody asks for the answer no running code is left of the question.
        let Some(shape) = schema.shape(rec.epid()) else {
            return false;
        };
        self.active.fits(shape.align, shape.size) && !self.is_closed(config)
    }

    /// Whether the CPU's buffer of the speculation would take a record; it is empty where the CPU is no caller.
    #[inline]
    pub fn fits_slot<S: Schema, R: Recorded>(
        &self,
        config: &Config,
        schema: &S,
        id: SpecId,
        rec: R,
        mine: bool,
    ) -> bool
    where
        B: TraceBuffer<S>,
        requires slot { (1 ≤ id.slot) × (id.slot ≤ length self.now.speculative.items) }
        requires accepted { IsTrue (S.accepted schema.now (R.as_record rec)) }
        ensures { (c : ℕ) (p : List Deed) → TellsSlotRoom (λ b. B.has b schema.now) B.capacity config.now c p
            (S.shape_of schema.now) id mine (R.as_record rec) self.now result }
    {
        let Some(shape) = schema.shape(rec.epid()) else {
            return false;
        };
        if mine {
            self.speculative[id.slot() as usize - 1].fits(shape.align, shape.size)
        } else {
            shape.size <= config.specsize
        }
    }
}
