//! The laws of plays, each a function without a body.
ghost use Rattle.std.specs.List.{AllByRecursion};
ghost use Rattle.std.specs.Prelude.{◌≡◌, ◌<◌, ℕ, Bool, false, List, map, reverse, Option, Some, None};
ghost use Rattle.dspec_record.specs.{Record.Record, declared.field.Shape.Shape};
ghost use Rattle.dspec_word.specs.SpecId.{Speculation};
ghost use Rattle.dspec_deeds.specs.declared.calls.Actor.TheVariants as actor;
ghost use Rattle.dspec_deeds.specs.{Closes.closing, Closes.CanClose, Closes.WaitsUndecided, History.owed, Legal.IsLegal, Legal.HasAuthors, Legal.IsSound, Ranges.start_fault};
ghost use Rattle.dspec_deeds.specs.{declared.calls.ConsumerOp.ConsumerOp, declared.calls.CpuOp.CpuOp, declared.calls.Turn.Turn, declared.config.Config.Config, declared.deed.DecideFate.DecideFate};
ghost use Rattle.dspec_deeds.specs.{declared.deed.Deed.Deed};
ghost use Rattle.dspec_interleaving.specs.{Bounds.clean_bound, Coherent.IsCoherent, Coherent.PlayState, Coherent.progress_of, Laws.AreCpusIdle, Laws.ArePlayed, Laws.ClosesWoven, Laws.CountsWorn};
ghost use Rattle.dspec_interleaving.specs.{Laws.IsBelowBound, Laws.IsCpuIdle, Laws.IsReleasedBy, Laws.ReleasesAsItDecides, Laws.ReleasesAtNextStep, Laws.RunsAsWholeConsumer, Laws.RunsAsWholeCpu};
ghost use Rattle.dspec_interleaving.specs.{Laws.is_worn_next, Plays.IsReadOff, Plays.answers_of, Plays.play_fault, Plays.played, SoloRule.DecidesNothing, Turns.at_start, Turns.begin_cpu};
ghost use Rattle.dspec_interleaving.specs.{Turns.begin_consumer, Turns.step, Wearing.is_told_worn, Wearing.AreWornRightly, Whole.Call, Whole.after_all, Whole.IsApart, Whole.AreCalls};
ghost use Rattle.dspec_interleaving.specs.{WholePlays.turn_of, WholePlays.AreAccepted, WholePlays.all_ended, declared.flight.CallPlace.CallPlace, declared.flight.ConsumerFlight.ConsumerFlight};

/// A play begins coherent, and every begin and every atomic step of whichever actor keeps it so: its list of deeds is
/// legal throughout.
pub fn schedule_legality()
    ensures start { (shape : ℕ → Option Shape) (k : Config) → start_fault k ≡ None → IsCoherent shape (at_start k) }
    ensures cpu_begins { (shape : ℕ → Option Shape) (st : PlayState) (c : ℕ) (o : CpuOp) → IsCoherent shape st
        → c < st.config.cpus → IsCpuIdle c st → IsCoherent shape (begin_cpu c o st) }
    ensures consumer_begins { (shape : ℕ → Option Shape) (st : PlayState) (o : ConsumerOp) → IsCoherent shape st
        → IsCoherent shape (begin_consumer o st) }
    ensures cpu_steps { (shape : ℕ → Option Shape) (st : PlayState) (c : ℕ) → IsCoherent shape st
        → c < st.config.cpus → IsCoherent shape (step shape (actor.Cpu c) st).state }
    ensures consumer_steps { (shape : ℕ → Option Shape) (st : PlayState) → IsCoherent shape st
        → IsCoherent shape (step shape actor.Consumer st).state }
    ensures legal { (shape : ℕ → Option Shape) (st : PlayState) → IsCoherent shape st → IsLegal shape st.config st.deeds }
{}

/// While a call is in flight it has made fewer steps than its bound.
pub fn bounded_steps()
    ensures cpu { (shape : ℕ → Option Shape) (st : PlayState) (c : ℕ) (f : CallPlace) → IsCoherent shape st
        → c < st.config.cpus → (progress_of st.progresses c).flight ≡ Some f
        → IsBelowBound c f st }
    ensures consumer { (shape : ℕ → Option Shape) (st : PlayState) (f : ConsumerFlight) → IsCoherent shape st
        → st.side.flight ≡ Some f → st.side.steps < clean_bound st.config f }
{}

/// What a CPU decides alone it releases in its call's last step: in the step that decides, or in the next. A step of the
/// consumer decides nothing.
pub fn solo_rule()
    ensures decided { (shape : ℕ → Option Shape) (st : PlayState) (c : ℕ) (id : Speculation) → IsCoherent shape st
        → c < st.config.cpus → ReleasesAsItDecides shape st c id }
    ensures released { (shape : ℕ → Option Shape) (st : PlayState) (c : ℕ) (id : Speculation) (f : DecideFate) → IsCoherent shape st
        → c < st.config.cpus → ReleasesAtNextStep shape st c id f }
    ensures consumer { (shape : ℕ → Option Shape) (st : PlayState) → IsCoherent shape st
        → DecidesNothing st.deeds (step shape actor.Consumer st).state.deeds }
{}

/// A step answers Worn exactly where it is the first of a call and its CPU has entered `max_calls` calls. So, of the ended
/// calls of a play, exactly those are Worn whose CPU had so many calls before that weren't. A service never is.
pub fn worn_rule()
    ensures cpu { (shape : ℕ → Option Shape) (st : PlayState) (c : ℕ) → is_told_worn (step shape (actor.Cpu c) st).answer
        ≡ is_worn_next c st }
    ensures consumer { (shape : ℕ → Option Shape) (st : PlayState)
        → is_told_worn (step shape actor.Consumer st).answer ≡ false }
    ensures played { (shape : ℕ → Option Shape) (accepts : Record → Bool) (k : Config) (ts : List Turn) → play_fault shape accepts k ts ≡ None
        → AreWornRightly k (reverse (answers_of shape k ts)) }
{}

/// The settlements of the close keep the list legal, and what waits after them waits for a speculation that is undecided.
pub fn close_is_legal()
    ensures legal { (shape : ℕ → Option Shape) (st : PlayState) → IsCoherent shape st
        → AreCpusIdle st → IsLegal shape st.config (closing shape st.config st.deeds) }
    ensures can_close { (shape : ℕ → Option Shape) (st : PlayState) → IsCoherent shape st
        → AreCpusIdle st → CanClose shape st.config st.deeds }
    ensures waits { (shape : ℕ → Option Shape) (k : Config) (h : List Deed) → start_fault k ≡ None → CanClose shape k h
        → WaitsUndecided k (closing shape k h) }
{}

/// A call that runs alone does what the definition of whole calls says.
pub fn whole_calls()
    ensures cpu { (shape : ℕ → Option Shape) (st : PlayState) (c : ℕ) (o : CpuOp) → IsCoherent shape st
        → c < st.config.cpus → IsCpuIdle c st → RunsAsWholeCpu shape st c o }
    ensures consumer { (shape : ℕ → Option Shape) (st : PlayState) (o : ConsumerOp) → IsCoherent shape st
        → IsApart o st → RunsAsWholeConsumer shape st o }
{}

/// Each ended call of a play answers what is read off its own deeds, whatever was done between its steps; and so many
/// of a CPU's calls are counted as worn as were answered Worn.
pub fn schedule_answers()
    ensures read_off { (shape : ℕ → Option Shape) (accepts : Record → Bool) (k : Config) (ts : List Turn) → play_fault shape accepts k ts ≡ None
        → AllByRecursion IsReadOff (played shape k ts).noted }
    ensures worn { (shape : ℕ → Option Shape) (accepts : Record → Bool) (k : Config) (ts : List Turn) (c : ℕ) → play_fault shape accepts k ts ≡ None
        → c < k.cpus → CountsWorn shape k ts c }
{}

/// A schedule of whole calls, one after another, is refused nowhere, and plays what the definition of whole calls says,
/// call by call.
pub fn whole_plays()
    ensures unrefused { (shape : ℕ → Option Shape) (accepts : Record → Bool) (k : Config) (xs : List Call) → start_fault k ≡ None
        → AreCalls k xs → AreAccepted accepts xs → ArePlayed shape accepts k xs }
    ensures state { (shape : ℕ → Option Shape) (k : Config) (xs : List Call) → start_fault k ≡ None
        → AreCalls k xs → (played shape k (map turn_of xs)).state ≡ after_all shape xs (at_start k) }
    ensures answers { (shape : ℕ → Option Shape) (k : Config) (xs : List Call) → start_fault k ≡ None
        → AreCalls k xs → answers_of shape k (map turn_of xs) ≡ all_ended shape xs (at_start k) }
    ensures legal { (shape : ℕ → Option Shape) (k : Config) (xs : List Call) → start_fault k ≡ None → AreCalls k xs
        → IsLegal shape k (after_all shape xs (at_start k)).deeds }
{}

/// Once each CPU has run a service after a decision, and the consumer a clean after those, the slot has been released.
pub fn whole_release()
    ensures { (shape : ℕ → Option Shape) (k : Config) (id : Speculation) (ws xs ys : List Call) → start_fault k ≡ None
        → AreCalls k ws → AreCalls k xs → AreCalls k ys
        → IsReleasedBy shape k id ws xs ys }
{}

/// Where no call of speculation is under way, the close of the woven list is legal; each CPU's part of it is that CPU's list
/// and the settlements that the CPU makes of its own list and the words, nothing decided is held, and what waits is
/// undecided.
pub fn woven_close()
    ensures { (shape : ℕ → Option Shape) (k : Config) (h : List Deed) (p : ℕ → List Deed) → start_fault k ≡ None → IsSound k h
        → owed h ≡ 0 → HasAuthors k h → ClosesWoven shape k p h }
{
    dspec_deeds::prefix_law();
    dspec_deeds::acceptance_law();
    dspec_deeds::fate_law();
    dspec_deeds::weaving();
}
