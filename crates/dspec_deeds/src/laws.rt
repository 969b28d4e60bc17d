//! The laws of every legal list, each a function without a body.
ghost use Rattle.std.specs.Prelude.{ℕ, List, Option};
ghost use Rattle.dspec_record.specs.declared.field.Shape.{Shape};
ghost use Rattle.dspec_deeds.specs.{Headline.PrefixLaw, Headline.AcceptanceLaw, Headline.FateLaw, Legal.IsLegal, declared.config.Config.Config, declared.deed.Deed.Deed};

/// What the consumer has taken from a CPU is a prefix of what that CPU's principal buffers accepted.
pub fn prefix_law()
    ensures { (shape : ℕ → Option Shape) (k : Config) (h : List Deed) (c : ℕ) → IsLegal shape k h → PrefixLaw c h }
{}

/// An offered record is accepted once at most; one offered to a speculation only after that speculation's commit, and
/// never where it was discarded.
pub fn acceptance_law()
    ensures { (shape : ℕ → Option Shape) (k : Config) (h : List Deed) (c : ℕ) → IsLegal shape k h → AcceptanceLaw c h }
{}

/// Every offered record has exactly one fate, and the report has the numbers of all fates.
pub fn fate_law()
    ensures { (shape : ℕ → Option Shape) (k : Config) (h : List Deed) (c : ℕ) → IsLegal shape k h → FateLaw k c h }
{}
