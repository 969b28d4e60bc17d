//! The laws of the page, each a function without a body.
ghost use Rattle.std.specs.Prelude.{ℕ, ◌≡◌, ◌<◌, List, ◌∷◌, Option};
ghost use Rattle.dspec_record.specs.{Record.Record, declared.field.Shape.Shape};
ghost use Rattle.dspec_word.specs.SpecId.{Speculation};
ghost use Rattle.dspec_deeds.specs.declared.calls.Actor.TheVariants as actor;
ghost use Rattle.dspec_deeds.specs.{Closes.WaitsUndecided, History.part, Legal.IsLegal, Own.offers as offers_of, Own.stream, Own.taken, Reports.report, Weaving.bare, declared.config.Config.Config};
ghost use Rattle.dspec_deeds.specs.{declared.deed.DecideFate.DecideFate, declared.deed.Deed.Deed, declared.deed.Deed.TheVariants.Trace, declared.deed.Deed.TheVariants.Speculate};
ghost use Rattle.dspec_deeds.specs.{declared.deed.Deed.TheVariants.Commit, declared.deed.Deed.TheVariants.Discard, declared.deed.Deed.TheVariants.Settle, declared.deed.SpeculateFate.SpeculateFate};
ghost use Rattle.dspec_deeds.specs.{declared.deed.TraceFate.TraceFate};
ghost use Rattle.dspec_promise.specs.{Deeds.AtEachMoment, Deeds.DecidedSoFar, Deeds.all_did, Deeds.did, Promise.commit, Promise.discard, Promise.service, Promise.traced, Promise.speculated};
ghost use Rattle.dspec_promise.specs.{Promise.emptied, Promise.handed, Promise.KeepsPromise, Promise.Promise, Reasons.GivenOnce, Reasons.HaveReasons, SameFates.AreOffers};

/// At every moment the page's promise is kept of what the consumer has taken, however many batches; and at each moment before it each
/// record had a fate of which the decision was made by then.
pub fn underway_law()
    ensures always { (shape : ℕ → Option Shape) (k : Config) (h : List Deed) → IsLegal shape k h → AtEachMoment (DecidedSoFar k.cpus) h }
    ensures keeps { (shape : ℕ → Option Shape) (k : Config) (h : List Deed) (c n : ℕ) → IsLegal shape k h → KeepsPromise k.cpus (all_did h) c (taken n c h) }
{}

/// Once a session is closed, the page's promise holds of each of its CPUs: of its stream, and of its report.
pub fn promise_law()
    ensures { (shape : ℕ → Option Shape) (k : Config) (h : List Deed) (c worn : ℕ) → IsLegal shape k h → WaitsUndecided k h
        → c < k.cpus → Promise k.cpus (all_did h) c (stream c h) (report k c worn h) }
{}

/// What the page has a CPU handed are all its records, with their contents, destinations and fates.
pub fn same_fates()
    ensures { (shape : ℕ → Option Shape) (k : Config) (h : List Deed) (c : ℕ) → IsLegal shape k h
        → AreOffers c h (offers_of c h) (handed (did c h)) }
{}

/// Whatever is refused is refused for its reason: a full buffer, a speculation that isn't open, or a stop; a record is kept only
/// into an open speculation; and no identifier is given out twice.
pub fn reasons_law()
    ensures once { (shape : ℕ → Option Shape) (k : Config) (h : List Deed) → IsLegal shape k h → GivenOnce h }
    ensures reasons { (shape : ℕ → Option Shape) (k : Config) (h : List Deed) → IsLegal shape k h → HaveReasons shape k h }
{}

/// What a CPU did is read off its own part of the list, and off that without its Seals; and each deed of its own that
/// touches records comes in front as the page tells it.
pub fn own_did()
    ensures part { (c : ℕ) (h : List Deed) → did c (part (actor.Cpu c) h) ≡ did c h }
    ensures bare { (c : ℕ) (h : List Deed) → did c (bare h) ≡ did c h }
    ensures traced { (c : ℕ) (r : Record) (f : TraceFate) (h : List Deed) → did c (Trace c r f ∷ h) ≡ traced r f ∷ did c h }
    ensures speculated { (c : ℕ) (id : Speculation) (r : Record) (f : SpeculateFate) (h : List Deed) → did c (Speculate c id r f ∷ h) ≡ speculated id r f ∷ did c h }
    ensures committed { (c : ℕ) (id : Speculation) (f : DecideFate) (h : List Deed) → did c (Commit c id f ∷ h) ≡ emptied commit id f ∷ did c h }
    ensures discarded { (c : ℕ) (id : Speculation) (f : DecideFate) (h : List Deed) → did c (Discard c id f ∷ h) ≡ emptied discard id f ∷ did c h }
    ensures settled { (c : ℕ) (id : Speculation) (f : DecideFate) (h : List Deed) → did c (Settle c id f ∷ h) ≡ emptied service id f ∷ did c h }
{}
