//! What policy Fill comes to over a whole list, each a function without a body.
ghost use Rattle.std.specs.Prelude.{◌≡◌, nat_lt, true, false, ℕ, List, [], ◌∷◌, Option};
ghost use Rattle.dspec_record.specs.{Record.Record, declared.field.Shape.Shape};
ghost use Rattle.dspec_buffer.specs.Extent.{one, block};
ghost use Rattle.dspec_word.specs.SpecId.{Speculation};
ghost use Rattle.dspec_deeds.specs.{FateKinds.trace_stopped, Legal.IsFitting, Legal.fits_principal, Own.accepts, Own.full, Own.growing, Own.seals, Owning.IsOwn, Ranges.is_fill};
ghost use Rattle.dspec_deeds.specs.{Refusals.BlockRefusalFills, Refusals.RefusalFills, Reports.report, declared.config.Config.Config, declared.deed.DecideFate.DecideFate, declared.deed.Deed.Deed};
ghost use Rattle.dspec_deeds.specs.{declared.deed.Deed.TheVariants.Trace, declared.deed.Deed.TheVariants.Commit, declared.deed.Deed.TheVariants.Settle, declared.deed.TraceFate.TraceFate};

/// A CPU's principal buffer has refused a reservation exactly where its report counts a drop. Under Fill, where nothing is
/// sealed, that is where the side counts one: read off the CPU's own list, and off the list of all.
pub fn full_drops()
    ensures counted { (k : Config) (c worn : ℕ) (h : List Deed) → full c h ≡ nat_lt 0 (report k c worn h).drops }
    ensures own { (shape : ℕ → Option Shape) (k : Config) (c : ℕ) (p : List Deed) → is_fill k.policy ≡ true → IsOwn shape k c p
        → full c p ≡ nat_lt 0 (growing c p).drops }
    ensures all { (shape : ℕ → Option Shape) (k : Config) (c : ℕ) (h : List Deed) → is_fill k.policy ≡ true → IsFitting shape k h
        → full c h ≡ nat_lt 0 (growing c h).drops }
{}

/// Under Fill no batch is sealed, in a CPU's own list and in the list of all.
pub fn never_sealed()
    ensures own { (shape : ℕ → Option Shape) (k : Config) (c : ℕ) (p : List Deed) → is_fill k.policy ≡ true → IsOwn shape k c p → seals c p ≡ 0 }
    ensures all { (shape : ℕ → Option Shape) (k : Config) (c : ℕ) (h : List Deed) → is_fill k.policy ≡ true → IsFitting shape k h → seals c h ≡ 0 }
{}

/// Under Fill a CPU's principal buffer that has refused a reservation accepts nothing more.
pub fn closed_for_good()
    ensures { (shape : ℕ → Option Shape) (k : Config) (c : ℕ) (d : Deed) (h : List Deed) → is_fill k.policy ≡ true → full c h ≡ true
        → IsFitting shape k (d ∷ h) → accepts c d h ≡ [] }
{}

/// A buffer without records is copied whatever the policy, and whatever was refused before.
pub fn empty_fits()
    ensures { (shape : ℕ → Option Shape) (k : Config) (c : ℕ) (h : List Deed) → IsFitting shape k h
        → fits_principal shape k c (block []) h ≡ true }
{}

/// Each reservation in a CPU's principal buffer that is refused is in `full`: a record that is traced, or the block of a commit
/// or of a settlement, where it doesn't fit.
pub fn refused_closes()
    ensures traced { (shape : ℕ → Option Shape) (k : Config) (c : ℕ) (r : Record) (f : TraceFate) (h : List Deed)
        → RefusalFills shape k c h (Trace c r f) (trace_stopped f ≡ false) (one r) }
    ensures committed { (shape : ℕ → Option Shape) (k : Config) (c : ℕ) (id : Speculation) (f : DecideFate) (h : List Deed)
        → BlockRefusalFills shape k c h (Commit c id f) id f }
    ensures settled { (shape : ℕ → Option Shape) (k : Config) (c : ℕ) (id : Speculation) (f : DecideFate) (h : List Deed)
        → BlockRefusalFills shape k c h (Settle c id f) id f }
{}
