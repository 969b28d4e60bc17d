//! The laws of one CPU's list, and of the list that the CPUs' lists are woven into; each a function without a body.
ghost use Rattle.std.specs.Prelude.{◌≡◌, ◌<◌, ℕ, List, Option};
ghost use Rattle.dspec_record.specs.declared.field.Shape.{Shape};
ghost use Rattle.dspec_deeds.specs.declared.calls.Actor.TheVariants as actor;
ghost use Rattle.dspec_deeds.specs.{CpuShown.own_side, CpuShown.last_called, CpuShown.TellsPresent, Headline.FateLaw, Headline.Headline, History.part, History.owed, Legal.IsLegal, Legal.HasAuthors};
ghost use Rattle.dspec_deeds.specs.{Legal.IsFitting, Legal.IsSound, Own.calls, Owning.IsOwn, Owning.ReadsApart, Owning.ReadsAlike, Reports.report, Reports.CountsWithin, Weaving.bare, Weaving.woven};
ghost use Rattle.dspec_deeds.specs.{Weaving.ArePlaced, Weaving.HaveLists, Weaving.HaveOwnParts, Weaving.IsBarePart, Weaving.ShowsAlike, Weaving.IsWoven, declared.config.Config.Config};
ghost use Rattle.dspec_deeds.specs.{declared.deed.Deed.Deed};

/// What is read off a CPU's own deeds is the same off the list of all and off the CPU's own list; and, Seals apart, off a
/// list and off that list without its Seals.
pub fn own_reads()
    ensures parts { (k : Config) (c : ℕ) (h : List Deed) → ReadsAlike k c (part (actor.Cpu c) h) h }
    ensures unsealed { (k : Config) (c : ℕ) (h : List Deed) → ReadsApart k c h (bare h) }
{}

/// What a CPU's side shows is the same off the CPU's own list and off the list of all; which speculation of a slot has the CPU
/// as a caller last rests on no Seal.
pub fn own_sides()
    ensures parts { (c : ℕ) (h : List Deed) → own_side c (part (actor.Cpu c) h) ≡ own_side c h }
    ensures unsealed { (c s : ℕ) (h : List Deed) → last_called c s h ≡ last_called c s (bare h) }
{}

/// Of a list that is legal in its common part: the mark of a slot tells whether the CPU is a caller of the slot's present
/// speculation, the buffer that goes with the mark has what the CPU holds of that, and nothing is held of an older one.
pub fn own_marks()
    ensures { (k : Config) (c s : ℕ) (h : List Deed) → c < k.cpus → IsSound k h → TellsPresent c s h }
{}

/// A list of deeds of the session's CPUs is legal in the own part exactly where each CPU's part is.
pub fn own_parts()
    ensures parts { (shape : ℕ → Option Shape) (k : Config) (h : List Deed) → IsFitting shape k h
        → HaveOwnParts shape k h }
    ensures whole { (shape : ℕ → Option Shape) (k : Config) (h : List Deed) → HasAuthors k h
        → HaveOwnParts shape k h → IsFitting shape k h }
{}

/// Of a CPU's own list alone, which without its Seals is that CPU's part of a list that is legal in its common part: each count
/// of its report but that of worn calls is at most the calls, and each of its records has one fate.
pub fn own_report()
    ensures counts { (shape : ℕ → Option Shape) (k : Config) (h p : List Deed) (c worn : ℕ) → IsSound k h → IsOwn shape k c p
        → IsBarePart c p h → CountsWithin (calls c p) (report k c worn p) }
    ensures fates { (shape : ℕ → Option Shape) (k : Config) (h p : List Deed) (c : ℕ) → IsSound k h → IsOwn shape k c p
        → IsBarePart c p h → FateLaw k c p }
{}

/// What is read off the deeds of all, words, acknowledgements and activity among it, is the same without the Seals.
pub fn bare_shows()
    ensures { (h : List Deed) → ShowsAlike h (bare h) }
{}

/// A list is legal, and owes nothing, where it is legal in its common part without its Seals, owes nothing there, each Seal
/// stands directly after the deed before it in its CPU's part, and each CPU's part is legal in the own part.
pub fn placed_seals()
    ensures legal { (shape : ℕ → Option Shape) (k : Config) (w : List Deed) → ArePlaced w → IsSound k (bare w) → owed (bare w) ≡ 0
        → HasAuthors k w → HaveOwnParts shape k w → IsLegal shape k w }
    ensures rests { (shape : ℕ → Option Shape) (k : Config) (w : List Deed) → ArePlaced w → IsSound k (bare w) → owed (bare w) ≡ 0
        → HasAuthors k w → HaveOwnParts shape k w → owed w ≡ 0 }
{}

/// A list that is legal in its common part, and the CPUs' own lists, are woven into one legal list: each Seal comes directly
/// after the deed that stands before it in its CPU's list, and at the front where there is none.
pub fn weaving()
    ensures { (shape : ℕ → Option Shape) (k : Config) (h : List Deed) (p : ℕ → List Deed) → IsSound k h → owed h ≡ 0
        → HasAuthors k h → HaveLists shape k p h → IsWoven shape k p h (woven k.cpus p h) }
{}

/// The headline of each CPU, of the woven list.
pub fn woven_headline()
    ensures { (shape : ℕ → Option Shape) (k : Config) (h : List Deed) (p : ℕ → List Deed) (c : ℕ) → IsSound k h → owed h ≡ 0
        → HasAuthors k h → HaveLists shape k p h → Headline k c (woven k.cpus p h) }
{
    crate::laws::prefix_law();
    crate::laws::acceptance_law();
    crate::laws::fate_law();
    weaving();
}
