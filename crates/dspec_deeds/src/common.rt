//! The laws of the common part, which words shared by many rest on; each a function without a body.
ghost use Rattle.std.specs.Prelude.{ℕ, ◌≡◌, ◌≤◌, ◌<◌, ◌||◌, false, List, ◌∷◌};
ghost use Rattle.dspec_word.specs.Word.{word_number};
ghost use Rattle.dspec_deeds.specs.declared.calls.Actor.TheVariants as actor;
ghost use Rattle.dspec_deeds.specs.{CommonDeeds.IsSameInCommon, CommonDeeds.AreSameInCommon, History.halted, History.is_halt, History.author, History.same_actor, History.word_at, History.ack};
ghost use Rattle.dspec_deeds.specs.{Legal.Facts, Legal.facts, Legal.FollowsBy, Legal.IsSound, Legal.HasAuthors, OthersDeeds.LeavesStanding, Weaving.ShowsAlike, WordSteps.word_after};
ghost use Rattle.dspec_deeds.specs.{WordSteps.ack_after, declared.config.Config.Config, declared.deed.Deed.Deed};

/// The common part looks neither at whether a record or a block found room, nor at the numbers of records: lists that differ in
/// nothing else have the same facts, are legal in it together and show the same words, and one such deed may come where the
/// other may.
pub fn common_part()
    ensures facts { (k : Config) (g h : List Deed) → AreSameInCommon g h → facts k g ≡ facts k h }
    ensures follows { (k : Config) (x : Facts) (d e : Deed) → IsSameInCommon d e → FollowsBy k x d → FollowsBy k x e }
    ensures sound { (k : Config) (g h : List Deed) → AreSameInCommon g h → IsSound k g → IsSound k h }
    ensures authors { (k : Config) (g h : List Deed) → AreSameInCommon g h → HasAuthors k g → HasAuthors k h }
    ensures shows { (g h : List Deed) → AreSameInCommon g h → ShowsAlike g h }
{}

/// Which word and which acknowledgement each deed changes, and to what; a Halt alone changes activity. No word's number and no
/// acknowledgement falls.
pub fn word_changes()
    ensures words { (k : Config) (s : ℕ) (d : Deed) (h : List Deed) → IsSound k (d ∷ h) → word_at s (d ∷ h) ≡ word_after s d h }
    ensures acks { (k : Config) (c s : ℕ) (d : Deed) (h : List Deed) → IsSound k (d ∷ h) → ack c s (d ∷ h) ≡ ack_after c s d h }
    ensures activity { (d : Deed) (h : List Deed) → halted (d ∷ h) ≡ (is_halt d || halted h) }
    ensures words_rise { (k : Config) (s : ℕ) (d : Deed) (h : List Deed) → IsSound k (d ∷ h)
        → word_number (word_at s h) ≤ word_number (word_at s (d ∷ h)) }
    ensures acks_rise { (k : Config) (c s : ℕ) (d : Deed) (h : List Deed) → IsSound k (d ∷ h) → ack c s h ≤ ack c s (d ∷ h) }
{}

/// What a deed of another actor leaves true for a CPU's call in flight: all that the CPU's own deeds tell; that it has done
/// nothing since a stop; the word of a slot that was free, unless the slot was given out since the CPU's last Scan; and a
/// decided speculation that waits for this CPU, whose word stands.
pub fn others_leave()
    ensures { (k : Config) (c : ℕ) (d : Deed) (h : List Deed) → c < k.cpus → IsSound k (d ∷ h)
        → same_actor (actor.Cpu c) (author d h) ≡ false → LeavesStanding k c d h }
{}
