//! A step of a play and the same step of a seat at the words enter the same deeds; and between any two steps the words show one
//! list. Each law is a function without a body.
ghost use Rattle.std.specs.Prelude.{ℕ, ◌≡◌, ◌++◌, List, Option};
ghost use Rattle.dspec_record.specs.declared.field.Shape.{Shape};
ghost use Rattle.dspec_deeds.specs.{Weaving.bare, declared.config.Config.Config, declared.deed.Deed.Deed};
ghost use Rattle.dspec_interleaving.specs.Play.{consumer_step};
ghost use Rattle.dspec_interleaving.specs.declared.flight.{CallPlace.CallPlace, ConsumerFlight.ConsumerFlight, ConsumerProgress.ConsumerProgress, CpuProgress.CpuProgress};
ghost use Rattle.dspec_table.specs.{Conditions.IsInFlight, OneList.ShowOneList, Rule.WordsRule, SameSteps.IsSameCall, SameSteps.EntersSame, SameSteps.IsMine, SameSteps.deeds_cleaned};
ghost use Rattle.dspec_table.specs.{SameSteps.SeatStep, SameSteps.ConsumerSeatStep, SameSteps.IsCpuStepFrom, SameSteps.IsConsumerStepFrom, Steps.Found, declared.doing.Doing.Doing};
ghost use Rattle.dspec_table.specs.{declared.rule.View.View};
ghost use Rattle.dspec_word.specs.SpecId.{Speculation};
ghost use Rattle.atomic_table.specs.Table.{State};

/// The list of a play without its Seals is the list of the words. At each place of a call a step of the play enters, Seals apart,
/// what the seat's step enters there, by its call in flight and by the activity and the word that its list shows. Whether the CPU
/// is a caller is known to the call in flight as the words' functions ask it.
pub fn same_steps()
    ensures cpu { (shape : ℕ → Option Shape) (k : Config) (c : ℕ) (h : List Deed) (me : CpuProgress) (f : CallPlace) (call : Doing)
        → IsSameCall shape k c h me f call → EntersSame shape k c h me f call }
    ensures consumer { (k : Config) (h : List Deed) (side : ConsumerProgress) (all : List CpuProgress) (f : ConsumerFlight)
        → (consumer_step k h side all f).deeds ≡ deeds_cleaned h f }
    ensures mine { (k : Config) (v : View) (c : ℕ) (doing : Doing) (id : Speculation) (slot : ℕ) (p : List Deed) → v.own ≡ bare p
        → IsInFlight k v c doing id slot → IsMine c p id doing }
    ensures cpu_seat { (doing : Doing) (v w : View) (f : CallPlace) → SeatStep doing v f w
        → (log : List Deed) × Found v log × IsCpuStepFrom log doing v f w }
    ensures consumer_seat { (v w : View) (f : ConsumerFlight) → ConsumerSeatStep v f w
        → (log : List Deed) × Found v log × IsConsumerStepFrom log v f w }
{}

/// Between any two steps at the shared words, by the rule that every step keeps, there is one list of deeds, which the words show and of
/// which each seat has its own part.
pub fn words_show_one_list()
    ensures { (k : Config) (st : State ℕ View) → WordsRule k st → ShowOneList k st }
{}
