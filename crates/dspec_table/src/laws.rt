//! The laws of the shared words, each a function without a body.
ghost use Rattle.std.specs.Prelude.{ℕ, ◌≡◌, ◌∷◌, ◌++◌, List};
ghost use Rattle.atomic_table.specs.Table.{State};
ghost use Rattle.dspec_deeds.specs.declared.{config.Config.Config, deed.Deed.Deed};
ghost use Rattle.dspec_table.specs.{Owners.HasOneSeat, Rule.WordsRule, declared.rule.View.View};

/// Between any two steps every deed of the list is some seat's own, at its place among that seat's deeds, and its author has
/// no other seat.
pub fn deeds_have_seats()
    ensures { (k : Config) (st : State ℕ View) (kept : WordsRule k st) (later before : List Deed) (d : Deed) → kept.log ≡ later ++ d ∷ before → HasOneSeat st.views d before }
{}
