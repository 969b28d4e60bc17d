use crate::doing::Doing;
use crate::rule::View;
use atomic_table::{Join, Play, Split};
use std::marker::{Brand, PhantomData};

/// What a CPU does in the step. Each call picks it.
pub trait HasDoing {
    ghost use Rattle.dspec_table.specs.declared.doing.Doing.{Doing};

    ghost doing: { Doing };
}

impl HasDoing for Brand {
    ghost use Rattle.dspec_table.specs.Acts.{nothing};

    ghost doing = { nothing };
}

pub struct LoadsActivity<J> {
    of: PhantomData<J>,
}

impl<J: HasDoing> Play<u8, View> for LoadsActivity<J> {
    ghost use Rattle.std.specs.Prelude.{◌≡◌, ◌==◌};
    ghost use Rattle.dspec_table.specs.Steps.{LoadedActivity};

    ghost then = { λ st v n w. LoadedActivity J.doing v.0 (n == 1) w.0 × (w.1 ≡ v.1) };
}

pub struct LoadsWord<J> {
    of: PhantomData<J>,
}

impl<J: HasDoing> Play<u8, View> for LoadsWord<J> {
    ghost use Rattle.std.specs.Prelude.{◌≡◌};
    ghost use Rattle.dspec_table.specs.{Layout.slot_at, Steps.LoadedNumber};

    ghost then = { λ st v n w. LoadedNumber J.doing (slot_at st.word) v.0 n w.0 × (w.1 ≡ v.1) };
}

pub struct OpensWord;

impl Play<u8, View> for OpensWord {
    ghost use Rattle.std.specs.Prelude.{◌≡◌, ◌==◌};
    ghost use Rattle.dspec_table.specs.{Layout.slot_at, Steps.OpenedNumber};

    ghost then = { λ st v n w. OpenedNumber (slot_at st.word) v.0 st.second n (n == st.first) w.0 × (w.1 ≡ v.1) };
}

pub struct TriesWord<J> {
    of: PhantomData<J>,
}

impl<J: HasDoing> Play<u8, View> for TriesWord<J> {
    ghost use Rattle.std.specs.Prelude.{◌≡◌, ◌==◌};
    ghost use Rattle.dspec_table.specs.{Layout.slot_at, Steps.TriedNumber};

    ghost then = { λ st v n w. TriedNumber J.doing (slot_at st.word) v.0 st.second n (n == st.first) w.0 × (w.1 ≡ v.1) };
}

pub struct ReleasesWord;

impl Play<u8, View> for ReleasesWord {
    ghost use Rattle.std.specs.Prelude.{◌≡◌};
    ghost use Rattle.dspec_table.specs.{Layout.slot_at, Steps.ReleasedWord};

    ghost then = { λ st v n w. ReleasedWord (slot_at st.word) v.0 w.0 × (w.1 ≡ v.1) };
}

pub struct StoresAck<J> {
    of: PhantomData<J>,
}

impl<J: HasDoing> Play<u8, View> for StoresAck<J> {
    ghost use Rattle.std.specs.Prelude.{◌≡◌};
    ghost use Rattle.dspec_table.specs.Steps.{StoredAck};

    ghost then = { λ st v n w. StoredAck J.doing st.word v.0 n w.0 × (w.1 ≡ v.1) };
}

pub struct LoadsAsk;

impl Play<u8, View> for LoadsAsk {
    ghost use Rattle.std.specs.Prelude.{◌≡◌};
    ghost use Rattle.dspec_table.specs.{Asks.LoadedAsk, Holders.number_of};

    ghost then = { λ st v n w. LoadedAsk (number_of v.0.who) v.0 n w.0 × (w.1 ≡ v.1) };
}

pub struct StoresAsk;

impl Play<u8, View> for StoresAsk {
    ghost use Rattle.std.specs.Prelude.{◌≡◌};
    ghost use Rattle.dspec_table.specs.Asks.{StoredAskAt};

    ghost then = { λ st v n w. StoredAskAt st.word v.0 n w.0 × (w.1 ≡ v.1) };
}

pub struct StoresActivity;

impl Play<u8, View> for StoresActivity {
    ghost use Rattle.std.specs.Prelude.{◌≡◌};
    ghost use Rattle.dspec_table.specs.Steps.{StoredActivity};

    ghost then = { λ st v n w. StoredActivity v.0 w.0 × (w.1 ≡ v.1) };
}

pub struct Looks;

impl Play<u8, View> for Looks {
    ghost use Rattle.std.specs.Prelude.{◌≡◌};
    ghost use Rattle.dspec_table.specs.Steps.{Looked};

    ghost then = { λ st v n w. Looked st.word v.0 w.0 × (w.1 ≡ v.1) };
}

pub struct LooksAtWord;

impl Play<u8, View> for LooksAtWord {
    ghost use Rattle.std.specs.Prelude.{◌≡◌};
    ghost use Rattle.dspec_table.specs.{Layout.slot_at, Steps.LookedNumber};

    ghost then = { λ st v n w. LookedNumber (slot_at st.word) v.0 n w.0 × (w.1 ≡ v.1) };
}

pub struct LoadsAck;

impl Play<u8, View> for LoadsAck {
    ghost use Rattle.std.specs.Prelude.{◌≡◌};
    ghost use Rattle.dspec_table.specs.Steps.{LoadedAckAt};

    ghost then = { λ st v n w. LoadedAckAt st.word v.0 n w.0 × (w.1 ≡ v.1) };
}

pub struct Reaps;

impl Play<u8, View> for Reaps {
    ghost use Rattle.std.specs.Prelude.{◌≡◌, ◌==◌};
    ghost use Rattle.dspec_table.specs.{Layout.slot_at, Steps.ReapedNumber};

    ghost then = { λ st v n w. ReapedNumber (slot_at st.word) v.0 n (n == st.first) w.0 × (w.1 ≡ v.1) };
}

/// The seat of a CPU is dealt out.
pub struct Deal;

impl Split<View> for Deal {
    ghost use Rattle.dspec_table.specs.Notes.{without, dealt};

    ghost left = { without };

    ghost right = { dealt };
}

/// A note of what a seat has seen.
pub struct Note;

impl Split<View> for Note {
    ghost use Rattle.dspec_table.specs.Notes.{note};

    ghost left = { λ v. v };

    ghost right = { note };
}

impl Join<View> for Note {
    ghost use Rattle.dspec_table.specs.Notes.{heard, nobody};

    ghost both = { heard };

    ghost spent = { nobody };
}

/// The consumer takes in a note.
pub struct JoinAnswer;

impl Join<View> for JoinAnswer {
    ghost use Rattle.dspec_table.specs.Notes.{answered, nobody};

    ghost both = { answered };

    ghost spent = { nobody };
}

/// A seat takes in another with its deeds.
pub struct Gather;

impl Join<View> for Gather {
    ghost use Rattle.dspec_table.specs.Notes.{gathered, nobody};

    ghost both = { gathered };

    ghost spent = { nobody };
}
