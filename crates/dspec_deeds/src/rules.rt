//! What the conditions on the next deed come to over a whole list, each a function without a body.
ghost use Rattle.std.specs.Prelude.{ℕ, ◌≡◌, ◌≤◌, ◌+◌, List};
ghost use Rattle.dspec_word.specs.SpecId.{Speculation};
ghost use Rattle.dspec_deeds.specs.{Legal.IsSound, Own.growing, Own.batches, Reports.report, Rules.SettlesOnce, Rules.late_calls, Rules.IsGivenBelow, Rules.drops_of, declared.config.Config.Config};
ghost use Rattle.dspec_deeds.specs.{declared.deed.Deed.Deed};

/// Of a list that is legal in its common part: a CPU settles a speculation once at most, only after its decision, and never one
/// that a CPU decided alone.
pub fn settled_once()
    ensures { (k : Config) (c : ℕ) (id : Speculation) (h : List Deed) → IsSound k h → SettlesOnce c id h }
{}

/// One call of each CPU at most goes on after a stop: the one that was under way.
pub fn late_once()
    ensures { (k : Config) (c : ℕ) (h : List Deed) → IsSound k h → late_calls c h ≤ 1 }
{}

/// A slot gives out so many speculations as its configuration says, and then is retired.
pub fn given_below()
    ensures { (k : Config) (h : List Deed) → IsSound k h → IsGivenBelow k h }
{}

/// The drops of a CPU's batches, and those since its last Seal, are the drops of its report.
pub fn batch_drops()
    ensures { (k : Config) (c worn : ℕ) (h : List Deed) → drops_of (batches c h) + (growing c h).drops ≡ (report k c worn h).drops }
{}
