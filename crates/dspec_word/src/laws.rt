ghost use Rattle.std.specs.{Ordering.nat_cmp, Prelude.◌≡◌, Prelude.◌<◌, Prelude.ℕ, Prelude.Bool};
ghost use Rattle.dspec_word.specs.{SpecId.Speculation, SpecId.id_number, Tables.speculate_at, Tables.commit_at, Tables.discard_at, Tables.open_at, Tables.settle_at, Tables.reap_at, Word.SlotState};
ghost use Rattle.dspec_word.specs.{Word.Rises, Word.word_number};

use crate::{Act, SpecId, Word};

/// Law of the six tables: each attempt is a greater word, of the same issue or inactive of the
/// next. So no word ever comes back, and an exchange that succeeds found the slot unmoved.
pub fn attempts_rise()
    ensures speculate { (w v : SlotState) (id : Speculation) (mine : Bool) →
        speculate_at w id mine ≡ Act.Attempt v → Rises w v }
    ensures commit { (w v : SlotState) (id : Speculation) (mine : Bool) →
        commit_at w id mine ≡ Act.Attempt v → Rises w v }
    ensures discard { (w v : SlotState) (id : Speculation) (mine : Bool) →
        discard_at w id mine ≡ Act.Attempt v → Rises w v }
    ensures open { (w v : SlotState) (most : ℕ) → open_at w most ≡ Act.Attempt v → Rises w v }
    ensures settle { (w v : SlotState) (acked : ℕ) → settle_at w acked ≡ Act.Attempt v → Rises w v }
    ensures reap { (w v : SlotState) (all : Bool) → reap_at w all ≡ Act.Attempt v → Rises w v }
{}

/// Law of the numbers: none is that of two words, or of two identifiers.
pub fn numbers_are_unique()
    ensures word { (v w : SlotState) → word_number v ≡ word_number w → v ≡ w }
    ensures identifier { (a b : Speculation) → a.slot < 64 → b.slot < 64 →
        id_number a ≡ id_number b → a ≡ b }
{}

/// Law of the order: words and identifiers compare as their numbers.
pub fn order_is_of_numbers()
    ensures word { (v w : SlotState) →
        ⟦<Word as Ord>⟧.cmp v w ≡ nat_cmp (word_number v) (word_number w) }
    ensures identifier { (a b : Speculation) → a.slot < 64 → b.slot < 64 →
        ⟦<SpecId as Ord>⟧.cmp a b ≡ nat_cmp (id_number a) (id_number b) }
{}
