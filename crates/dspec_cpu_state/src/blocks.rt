ghost use Rattle.std.specs.Prelude.{◌≡◌, ◌<◌, ◌≤◌, ◌+◌, ◌-◌, ◌^◌, [], ℕ, false, List, length, map, if◌then◌else◌};
ghost use Rattle.dspec_record.specs.Record.{Record};
ghost use Rattle.dspec_buffer.specs.Extent.{Piece, one};
ghost use Rattle.dspec_word.specs.SpecId.{Speculation};
ghost use Rattle.dspec_deeds.specs.{FateKinds.is_commit, FateKinds.is_copied, FateKinds.is_discard, FateKinds.is_lost, Own.held, Settling.committed_fate, Settling.settled_fate};
ghost use Rattle.dspec_deeds.specs.{declared.config.Config.Config, declared.deed.Deed.Deed, declared.deed.Deed.TheVariants.Commit, declared.deed.Deed.TheVariants.Discard};
ghost use Rattle.dspec_deeds.specs.{declared.deed.Deed.TheVariants.Settle};
ghost use Rattle.dspec_cpu_state.specs.{Counting.HasRoom, Counting.IsRoomy, Counting.with_decided, CpuStates.IsCaller, CpuStates.ShowsList, Showing.ChangesAt, Showing.ShowsEnded, Showing.ShowsNext};
ghost use Rattle.dspec_cpu_state.specs.{Showing.TakesBlock, Showing.TellsBlock, Showing.TellsBlockRoom, Showing.block_fits, Showing.decided_side, Showing.ends_block, Showing.settled_side};

use crate::cpu_state::CpuState;
use dspec_buffer::TraceBuffer;
use dspec_deeds::{Config, DecideFate};
use dspec_record::Schema;
use dspec_word::{Code, SpecId};

/// What becomes of a committed block of so many records.
#[inline]
pub fn committed_as(fits: bool, count: u32) -> DecideFate
    ensures { result ≡ committed_fate fits count }
{
    if fits {
        DecideFate::Copied(count)
    } else {
        DecideFate::Lost(count)
    }
}

/// What becomes of a block that is settled, by the code of the word that was shown.
#[inline]
pub fn settled_as(code: Code, fits: bool, count: u32) -> DecideFate
    ensures { result ≡ settled_fate code fits count }
{
    match code {
        Code::Discarding => DecideFate::Thrown(count),
        _ => committed_as(fits, count),
    }
}

#[inline]
fn is_copy(fate: DecideFate) -> bool
    ensures { result ≡ is_copied fate }
{
    matches!(fate, DecideFate::Copied(_))
}

// How many drops the end of a block is.
#[inline]
fn drops_of(fate: DecideFate) -> u64
    ensures { result ≡ (if is_lost fate then 1 else 0) }
{
    match fate {
        DecideFate::Lost(_) => 1,
        _ => 0,
    }
}

// Whether the whole text of a buffer would fit, or no text at all, and how many records it has.
#[inline]
fn measure<S: Schema, B: TraceBuffer<S>>(active: &B, buffer: &B, mine: bool) -> (bool, u32)
    ensures fits { (s : S) (ps : List Piece) (rs : List Record) → B.has active.now s ps → B.has buffer.now s (map one rs)
        → result.0 ≡ block_fits (S.shape_of s) ps mine rs (B.capacity active.now) }
    ensures count { (s : S) (rs : List Record) → B.has buffer.now s (map one rs) → result.1 ≡ length (if mine then rs else []) }
{
    if !mine {
        return (active.fits(8, 0), 0);
    }
    let size = buffer.offset();
    let count = buffer.count();
    (active.fits(8, size), count)
}

// Ends a block: it is copied whole where it fits, else lost or thrown away; then its buffer is empty. A CPU that is no caller has
// no block.
#[inline]
fn end_block<S: Schema, B: TraceBuffer<S>>(
    active: &mut B,
    buffers: &mut Vec<B>,
    place: usize,
    mine: bool,
    fit: bool,
)
    requires place { place < length buffers.old.items }
    ensures size { B.capacity active.new ≡ B.capacity active.old }
    ensures active { (s : S) → TakesBlock (λ b. B.has b s) B.capacity (S.shape_of s) mine fit place buffers.old.items active.old active.new }
    ensures buffer { ChangesAt B.capacity place buffers.old.items buffers.new.items
        (λ b n. (s : S) (ps : List Piece) → B.has b s ps → B.has n s (if mine then [] else ps)) }
{
    if !mine {
        return;
    }
    let buffer = &mut buffers[place];
    if fit {
        let _ = active.push_block(buffer);
    }
    buffer.clear();
}

impl<B> CpuState<B> {
    // Whether the active principal buffer takes a block of so many records that has room there: unless it is closed, and then an
    // empty one.
    #[inline]
    fn takes(&self, config: &Config, room: bool, count: u32) -> bool
        ensures { TellsBlock config.now self.now.counts room count result }
    {
        let closed = self.is_closed(config);
        room && (count == 0 || !closed)
    }

    /// Whether the active principal buffer would take the CPU's block of the speculation, and how many records that has; a CPU
    /// that is no caller has none.
    #[inline]
    pub fn measure<S: Schema>(&self, config: &Config, id: SpecId, mine: bool) -> (bool, u32)
    where
        B: TraceBuffer<S>,
        requires slot { (1 ≤ id.slot) × (id.slot ≤ length self.now.speculative.items) }
        ensures fits { (s : S) (c : ℕ) (p : List Deed)
            → TellsBlockRoom (λ b. B.has b s) B.capacity config.now c p (S.shape_of s) id mine self.now result.0 }
        ensures count { (s : S) (c : ℕ) (p : List Deed) → ShowsList (λ b. B.has b s) B.capacity config.now c p self.now → IsCaller c id mine p
            → result.1 ≡ length (held c id p) }
    {
        let buffer = &self.speculative[id.slot() as usize - 1];
        let (room, count) = measure(&self.active, buffer, mine);
        (self.takes(config, room, count), count)
    }

    /// Decides a speculation by a commit or a discard: the CPU's own block of it is copied whole, lost or thrown away.
    #[inline]
    pub fn decide<S: Schema>(&mut self, id: SpecId, mine: bool, fate: DecideFate)
    where
        B: TraceBuffer<S>,
        requires slot { (1 ≤ id.slot) × (id.slot ≤ length self.old.speculative.items) }
        requires calls { self.old.calls + 1 < 2 ^ 64 }
        requires drops { self.old.drops + 1 < 2 ^ 64 }
        requires room { HasRoom fate self.old.counts }
        ensures commits { (s : S) (k : Config) (c : ℕ) (p : List Deed)
            → ShowsEnded (λ b. B.has b s) B.capacity k c p (S.shape_of s) id mine (is_commit fate) (Commit c id fate) self.old self.new }
        ensures discards { (s : S) (k : Config) (c : ℕ) (p : List Deed)
            → ShowsEnded (λ b. B.has b s) B.capacity k c p (S.shape_of s) id mine (is_discard fate) (Discard c id fate) self.old self.new }
        ensures rest { self.new ≡ decided_side fate self.old self.new }
    {
        let place = id.slot() as usize - 1;
        end_block(
            &mut self.active,
            &mut self.speculative,
            place,
            mine,
            is_copy(fate),
        );
        self.calls += 1;
        self.drops += drops_of(fate);
        self.counts.decide(fate);
    }

    /// Settles a speculation that was decided elsewhere: the CPU's own block of it is copied whole, lost or thrown away, and the
    /// slot acknowledged.
    #[inline]
    pub fn settle<S: Schema>(&mut self, id: SpecId, mine: bool, fate: DecideFate)
    where
        B: TraceBuffer<S>,
        requires slot { (1 ≤ id.slot) × (id.slot ≤ length self.old.speculative.items) × (id.slot ≤ length self.old.acks.items) }
        requires drops { self.old.drops + (if is_lost fate then 1 else 0) < 2 ^ 64 }
        requires room { HasRoom fate self.old.counts }
        ensures shows { (s : S) (k : Config) (c : ℕ) (p : List Deed) → ShowsEnded (λ b. B.has b s) B.capacity k c p
            (S.shape_of s) id mine (ends_block fate) (Settle c id fate) self.old self.new }
        ensures rest { self.new ≡ settled_side fate self.old self.new }
    {
        let place = id.slot() as usize - 1;
        end_block(
            &mut self.active,
            &mut self.speculative,
            place,
            mine,
            is_copy(fate),
        );
        self.drops += drops_of(fate);
        self.counts.decide(fate);
        self.acks[place] = id.issue() + 1;
    }

    /// Counts a call of commit or discard that decided nothing: the identifier isn't open, or the session was stopped.
    #[inline]
    pub fn leave_undecided<S: Schema>(&mut self, fate: DecideFate)
    where
        B: TraceBuffer<S>,
        requires nothing { ends_block fate ≡ false }
        requires calls { self.old.calls + 1 < 2 ^ 64 }
        requires counts { IsRoomy self.old.counts }
        ensures commits { (s : S) (k : Config) (c : ℕ) (p : List Deed) (id : Speculation)
            → ShowsNext (λ b. B.has b s) B.capacity k c p (Commit c id fate) self.old self.new }
        ensures discards { (s : S) (k : Config) (c : ℕ) (p : List Deed) (id : Speculation)
            → ShowsNext (λ b. B.has b s) B.capacity k c p (Discard c id fate) self.old self.new }
        ensures rest { self.new ≡ record self.old { calls = self.old.calls + 1; counts = with_decided fate self.old.counts } }
    {
        self.calls += 1;
        self.counts.decide(fate);
    }
}
