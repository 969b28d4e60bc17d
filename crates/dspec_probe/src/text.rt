ghost use Rattle.std.specs.{Int.w64, Int.to_le_bytes, List.flat_map, Prelude.◌≡◌, Prelude.◌≤◌, Prelude.◌<◌, Prelude.◌*◌, Prelude.length, Prelude.IfOk, Prelude.slice_index_or};
ghost use Rattle.dspec_probe.specs.Texts.{is_continuation, cut_place, text_word, filled_words, text_words, text_of, is_whole, text_bytes};

use crate::number_list::NumberList;
use crate::part::{Part, Place, Room};
use crate::{FieldList, Kind, Value};
use dspec_record::Field;
use std::alloc::{AllocError, Global};

/// What stands after a text that was cut.
const FULL_STOP: u8 = b'.';

/// A text of so many words of eight bytes, 1 to 6, as a field of a record: zeros stand after its end. A longer one is cut, where its
/// bytes are UTF-8 at the border of a character, and full stops stand after the cut. So its last byte isn't zero, which tells of the cut.
#[derive(Debug, Clone, Copy, PartialEq, Eq)]
pub struct Text<const N: usize> {
    pub(crate) words: [u64; N],
}

/// Whether a byte goes on with a character of UTF-8.
fn is_continuation(byte: u8) -> bool
    ensures { result ≡ is_continuation byte }
{
    byte / 64 == 2
}

/// Where a text is cut that has more bytes than these.
#[tactic(auto, unfolding(crate::specs::Texts::cut_place))]
fn cut_place(bytes: &[u8], size: usize) -> usize
    requires some { 8 ≤ size }
    requires longer { size < length bytes.now }
    ensures place { result ≡ cut_place bytes.now size }
    ensures within { result ≤ size }
{
    if !is_continuation(bytes[size]) {
        return size;
    }
    if !is_continuation(bytes[size - 1]) {
        return size - 1;
    }
    if !is_continuation(bytes[size - 2]) {
        return size - 2;
    }
    if !is_continuation(bytes[size - 3]) {
        return size - 3;
    }
    size
}

/// The byte at a place, or what stands after the bytes.
fn byte_at(bytes: &[u8], place: usize, fill: u8) -> u8
    ensures { result ≡ slice_index_or bytes.now place fill }
{
    match bytes.get(place) {
        Some(byte) => *byte,
        None => fill,
    }
}

/// The word at a place.
#[tactic(auto, unfolding(crate::specs::Texts::text_word))]
fn text_word(bytes: &[u8], fill: u8, place: usize) -> u64
    requires { place < 6 }
    ensures { result ≡ text_word bytes.now fill place }
{
    let at = 8 * place;
    u64::from_le_bytes([
        byte_at(bytes, at, fill),
        byte_at(bytes, at + 1, fill),
        byte_at(bytes, at + 2, fill),
        byte_at(bytes, at + 3, fill),
        byte_at(bytes, at + 4, fill),
        byte_at(bytes, at + 5, fill),
        byte_at(bytes, at + 6, fill),
        byte_at(bytes, at + 7, fill),
    ])
}

/// Fills words with these bytes, and with this one after them.
fn put_words(bytes: &[u8], fill: u8, words: &mut [u64])
    requires { length words.old ≤ 6 }
    ensures { words.new ≡ filled_words (length words.old) bytes.now fill }
{
    for place in 0..words.len() {
        words[place] = text_word(bytes, fill, place);
    }
}

/// Fills words with a text.
#[tactic(auto, unfolding(crate::specs::Texts::text_words))]
fn put_text(bytes: &[u8], words: &mut [u64])
    requires { (1 ≤ length words.old) × (length words.old ≤ 6) }
    ensures { words.new ≡ text_words (length words.old) bytes.now }
{
    let size = 8 * words.len();
    if bytes.len() <= size {
        put_words(bytes, 0, words);
        return;
    }
    let end = cut_place(bytes, size);
    put_words(&bytes[..end], FULL_STOP, words);
}

impl<const N: usize> Text<N> {
    /// This text, or as much of it as has room.
    #[inline]
    pub fn of(text: &str) -> Text<N>
        requires { (1 ≤ N) × (N ≤ 6) }
        ensures { result.words ≡ text_words N text.now }
    {
        Text::of_bytes(text.as_bytes())
    }

    /// The text of these bytes. Any may stand in it, but readers take the first zero for its end.
    pub fn of_bytes(bytes: &[u8]) -> Text<N>
        requires { (1 ≤ N) × (N ≤ 6) }
        ensures { result.words ≡ text_words N bytes.now }
    {
        let mut words = [0; N];
        put_text(bytes, &mut words);
        Text { words }
    }

    /// Whether its last byte is zero. Then nothing of it was cut; else it may have been.
    pub fn whole(&self) -> bool
        ensures { result ≡ is_whole self.now.words }
    {
        match self.words.last() {
            Some(word) => *word / 0x0100_0000_0000_0000 == 0,
            None => true,
        }
    }

    /// Its words.
    #[inline]
    pub fn words(&self) -> &[u64]
        ensures { result.now ≡ self.now.words }
    {
        &self.words
    }

    /// Its bytes, up to the first zero, else all.
    pub fn bytes(&self, alloc: Global) -> Result<Vec<u8>, AllocError>
        ensures { IfOk result (λ bytes. bytes.items ≡ text_bytes self.now.words) }
    {
        text_bytes(alloc, &self.words)
    }
}

/// All bytes of words.
fn all_bytes(alloc: Global, words: &[u64]) -> Result<Vec<u8>, AllocError>
    ensures { IfOk result (λ bytes. bytes.items ≡ flat_map (to_le_bytes w64) words.now) }
{
    let mut bytes = Vec::new(alloc);
    for word in words {
        bytes.extend_from_slice(&word.to_le_bytes())?;
    }
    Ok(bytes)
}

/// The bytes of the text that these words are: those up to the first zero, else all.
pub fn text_bytes(alloc: Global, words: &[u64]) -> Result<Vec<u8>, AllocError>
    ensures { IfOk result (λ bytes. bytes.items ≡ text_bytes words.now) }
{
    let all = all_bytes(alloc, words)?;
    let mut bytes = Vec::new(alloc);
    for byte in &all {
        if *byte == 0 {
            return Ok(bytes);
        }
        bytes.push(*byte)?;
    }
    Ok(bytes)
}

/// The text with these words; None of another number of words.
#[inline(always)]
fn text_of<const N: usize>(words: &[u64]) -> Option<Text<N>>
    ensures { result ≡ text_of N words.now }
{
    if words.len() != N {
        return None;
    }
    let mut held = [0; N];
    held.copy_from_slice(words);
    Some(Text { words: held })
}

/// The first word of a text.
#[derive(Clone, Copy)]
struct First(u64);

/// One of the next words of a text.
#[derive(Clone, Copy)]
struct Next(u64);

impl Value for First {
    ghost use Rattle.std.specs.{Option.option_map, Prelude.◌^◌};
    ghost use Rattle.dspec_probe.specs.{Values.below, declared.kind.Kind.TheVariants.Text};
    ghost use Rattle.dspec_record.specs.declared.field.Field.TheVariants.{Eight};

    ghost field_is = { Eight };

    ghost number_of = { λ word. word.0 };

    ghost value_of = { λ n. option_map (λ m. record { 0 = m }) (below (2 ^ 64) n) };

    ghost kind_is = { Text };

    #[inline(always)]
    fn field() -> Field {
        u64::field()
    }

    #[inline(always)]
    fn kind() -> Kind {
        Kind::Text
    }

    #[inline(always)]
    fn number(self) -> u64 {
        self.0
    }

    #[inline(always)]
    fn value(number: u64) -> Option<Self> {
        Some(First(number))
    }
}

impl Value for Next {
    ghost use Rattle.std.specs.{Option.option_map, Prelude.◌^◌};
    ghost use Rattle.dspec_probe.specs.{Values.below, declared.kind.Kind.TheVariants.TextNext};
    ghost use Rattle.dspec_record.specs.declared.field.Field.TheVariants.{Eight};

    ghost field_is = { Eight };

    ghost number_of = { λ word. word.0 };

    ghost value_of = { λ n. option_map (λ m. record { 0 = m }) (below (2 ^ 64) n) };

    ghost kind_is = { TextNext };

    #[inline(always)]
    fn field() -> Field {
        u64::field()
    }

    #[inline(always)]
    fn kind() -> Kind {
        Kind::TextNext
    }

    #[inline(always)]
    fn number(self) -> u64 {
        self.0
    }

    #[inline(always)]
    fn value(number: u64) -> Option<Self> {
        Some(Next(number))
    }
}

impl<R: Room> Part<Place<R>> for Text<1> {
    ghost use Rattle.std.specs.Prelude.{◌∷◌, ◌+◌, [], refl};
    ghost use Rattle.dspec_record.specs.declared.field.Field.TheVariants.{Eight};
    ghost use Rattle.dspec_probe.specs.{Rooms.le-refl, Texts.text_of};
    ghost use Rattle.dspec_probe.specs.declared.kind.Kind.TheVariants as kind;

    type Left = R;

    ghost fields_are = { Eight ∷ [] };

    ghost numbers_of = { λ text. text.words };

    ghost values_of = { text_of 1 };

    ghost kinds_are = { kind.Text ∷ [] };

    ghost few = { le-refl (1 + R.places) };

    ghost same = { refl };

    #[inline(always)]
    fn count() -> usize {
        <(First, ()) as Part<Place<R>>>::count()
    }

    #[inline(always)]
    fn fields_after(others: FieldList) -> FieldList {
        <(First, ()) as Part<Place<R>>>::fields_after(others)
    }

    #[inline(always)]
    fn kind_at(place: usize) -> Kind {
        <(First, ()) as Part<Place<R>>>::kind_at(place)
    }

    #[inline(always)]
    fn numbers_after(self, others: NumberList) -> NumberList {
        let [a] = self.words;
        <(First, ()) as Part<Place<R>>>::numbers_after((First(a), ()), others)
    }

    #[inline(always)]
    fn of_numbers(numbers: &[u64]) -> Option<Self> {
        text_of(numbers)
    }

    #[inline(always)]
    fn pack_after(self, end: usize, words: &mut [u64; 9]) -> usize {
        let [a] = self.words;
        <(First, ()) as Part<Place<R>>>::pack_after((First(a), ()), end, words)
    }
}

impl<R: Room> Part<Place<Place<R>>> for Text<2> {
    ghost use Rattle.std.specs.Prelude.{◌∷◌, [], refl};
    ghost use Rattle.dspec_record.specs.declared.field.Field.TheVariants.{Eight};
    ghost use Rattle.dspec_probe.specs.{Rooms.two-few, Texts.text_of};
    ghost use Rattle.dspec_probe.specs.declared.kind.Kind.TheVariants as kind;

    type Left = R;

    ghost fields_are = { Eight ∷ Eight ∷ [] };

    ghost numbers_of = { λ text. text.words };

    ghost values_of = { text_of 2 };

    ghost kinds_are = { kind.Text ∷ kind.TextNext ∷ [] };

    ghost few = { two-few R.places };

    ghost same = { refl };

    #[inline(always)]
    fn count() -> usize {
        2
    }

    #[inline(always)]
    fn fields_after(others: FieldList) -> FieldList {
        <(First, (Next, ())) as Part<Place<Place<R>>>>::fields_after(others)
    }

    #[inline(always)]
    fn kind_at(place: usize) -> Kind {
        <(First, (Next, ())) as Part<Place<Place<R>>>>::kind_at(place)
    }

    #[inline(always)]
    fn numbers_after(self, others: NumberList) -> NumberList {
        let [a, b] = self.words;
        <(First, (Next, ())) as Part<Place<Place<R>>>>::numbers_after(
            (First(a), (Next(b), ())),
            others,
        )
    }

    #[inline(always)]
    fn of_numbers(numbers: &[u64]) -> Option<Self> {
        text_of(numbers)
    }

    #[inline(always)]
    fn pack_after(self, end: usize, words: &mut [u64; 9]) -> usize {
        let [a, b] = self.words;
        <(First, (Next, ())) as Part<Place<Place<R>>>>::pack_after(
            (First(a), (Next(b), ())),
            end,
            words,
        )
    }
}

impl<R: Room> Part<Place<Place<Place<R>>>> for Text<3> {
    ghost use Rattle.std.specs.Prelude.{◌∷◌, [], refl};
    ghost use Rattle.dspec_record.specs.declared.field.Field.TheVariants.{Eight};
    ghost use Rattle.dspec_probe.specs.{Rooms.three-few, Texts.text_of};
    ghost use Rattle.dspec_probe.specs.declared.kind.Kind.TheVariants as kind;

    type Left = R;

    ghost fields_are = { Eight ∷ Eight ∷ Eight ∷ [] };

    ghost numbers_of = { λ text. text.words };

    ghost values_of = { text_of 3 };

    ghost kinds_are = { kind.Text ∷ kind.TextNext ∷ kind.TextNext ∷ [] };

    ghost few = { three-few R.places };

    ghost same = { refl };

    #[inline(always)]
    fn count() -> usize {
        3
    }

    #[inline(always)]
    fn fields_after(others: FieldList) -> FieldList {
        <(First, (Next, (Next, ()))) as Part<Place<Place<Place<R>>>>>::fields_after(others)
    }

    #[inline(always)]
    fn kind_at(place: usize) -> Kind {
        <(First, (Next, (Next, ()))) as Part<Place<Place<Place<R>>>>>::kind_at(place)
    }

    #[inline(always)]
    fn numbers_after(self, others: NumberList) -> NumberList {
        let [a, b, c] = self.words;
        <(First, (Next, (Next, ()))) as Part<Place<Place<Place<R>>>>>::numbers_after(
            (First(a), (Next(b), (Next(c), ()))),
            others,
        )
    }

    #[inline(always)]
    fn of_numbers(numbers: &[u64]) -> Option<Self> {
        text_of(numbers)
    }

    #[inline(always)]
    fn pack_after(self, end: usize, words: &mut [u64; 9]) -> usize {
        let [a, b, c] = self.words;
        <(First, (Next, (Next, ()))) as Part<Place<Place<Place<R>>>>>::pack_after(
            (First(a), (Next(b), (Next(c), ()))),
            end,
            words,
        )
    }
}

impl<R: Room> Part<Place<Place<Place<Place<R>>>>> for Text<4> {
    ghost use Rattle.std.specs.Prelude.{◌∷◌, [], refl};
    ghost use Rattle.dspec_record.specs.declared.field.Field.TheVariants.{Eight};
    ghost use Rattle.dspec_probe.specs.{Rooms.four-few, Texts.text_of};
    ghost use Rattle.dspec_probe.specs.declared.kind.Kind.TheVariants as kind;

    type Left = R;

    ghost fields_are = { Eight ∷ Eight ∷ Eight ∷ Eight ∷ [] };

    ghost numbers_of = { λ text. text.words };

    ghost values_of = { text_of 4 };

    ghost kinds_are = { kind.Text ∷ kind.TextNext ∷ kind.TextNext ∷ kind.TextNext ∷ [] };

    ghost few = { four-few R.places };

    ghost same = { refl };

    #[inline(always)]
    fn count() -> usize {
        4
    }

    #[inline(always)]
    fn fields_after(others: FieldList) -> FieldList {
        <(First, (Next, (Next, (Next, ())))) as Part<Place<Place<Place<Place<R>>>>>>::fields_after(
            others,
        )
    }

    #[inline(always)]
    fn kind_at(place: usize) -> Kind {
        <(First, (Next, (Next, (Next, ())))) as Part<Place<Place<Place<Place<R>>>>>>::kind_at(place)
    }

    #[inline(always)]
    fn numbers_after(self, others: NumberList) -> NumberList {
        let [a, b, c, d] = self.words;
        <(First, (Next, (Next, (Next, ())))) as Part<Place<Place<Place<Place<R>>>>>>::numbers_after(
            (First(a), (Next(b), (Next(c), (Next(d), ())))),
            others,
        )
    }

    #[inline(always)]
    fn of_numbers(numbers: &[u64]) -> Option<Self> {
        text_of(numbers)
    }

    #[inline(always)]
    fn pack_after(self, end: usize, words: &mut [u64; 9]) -> usize {
        let [a, b, c, d] = self.words;
        <(First, (Next, (Next, (Next, ())))) as Part<Place<Place<Place<Place<R>>>>>>::pack_after(
            (First(a), (Next(b), (Next(c), (Next(d), ())))),
            end,
            words,
        )
    }
}

impl<R: Room> Part<Place<Place<Place<Place<Place<R>>>>>> for Text<5> {
    ghost use Rattle.std.specs.Prelude.{◌∷◌, [], refl};
    ghost use Rattle.dspec_record.specs.declared.field.Field.TheVariants.{Eight};
    ghost use Rattle.dspec_probe.specs.{Rooms.five-few, Texts.text_of};
    ghost use Rattle.dspec_probe.specs.declared.kind.Kind.TheVariants as kind;

    type Left = R;

    ghost fields_are = { Eight ∷ Eight ∷ Eight ∷ Eight ∷ Eight ∷ [] };

    ghost numbers_of = { λ text. text.words };

    ghost values_of = { text_of 5 };

    ghost kinds_are = { kind.Text ∷ kind.TextNext ∷ kind.TextNext ∷ kind.TextNext ∷ kind.TextNext ∷ [] };

    ghost few = { five-few R.places };

    ghost same = { refl };

    #[inline(always)]
    fn count() -> usize {
        5
    }

    #[inline(always)]
    fn fields_after(others: FieldList) -> FieldList {
        <(First, (Next, (Next, (Next, (Next, ()))))) as Part<
            Place<Place<Place<Place<Place<R>>>>>,
        >>::fields_after(others)
    }

    #[inline(always)]
    fn kind_at(place: usize) -> Kind {
        <(First, (Next, (Next, (Next, (Next, ()))))) as Part<
            Place<Place<Place<Place<Place<R>>>>>,
        >>::kind_at(place)
    }

    #[inline(always)]
    fn numbers_after(self, others: NumberList) -> NumberList {
        let [a, b, c, d, e] = self.words;
        <(First, (Next, (Next, (Next, (Next, ()))))) as Part<
            Place<Place<Place<Place<Place<R>>>>>,
        >>::numbers_after(
            (First(a), (Next(b), (Next(c), (Next(d), (Next(e), ()))))),
            others,
        )
    }

    #[inline(always)]
    fn of_numbers(numbers: &[u64]) -> Option<Self> {
        text_of(numbers)
    }

    #[inline(always)]
    fn pack_after(self, end: usize, words: &mut [u64; 9]) -> usize {
        let [a, b, c, d, e] = self.words;
        <(First, (Next, (Next, (Next, (Next, ()))))) as Part<
            Place<Place<Place<Place<Place<R>>>>>,
        >>::pack_after(
            (First(a), (Next(b), (Next(c), (Next(d), (Next(e), ()))))),
            end,
            words,
        )
    }
}

impl<R: Room> Part<Place<Place<Place<Place<Place<Place<R>>>>>>> for Text<6> {
    ghost use Rattle.std.specs.Prelude.{◌∷◌, [], refl};
    ghost use Rattle.dspec_record.specs.declared.field.Field.TheVariants.{Eight};
    ghost use Rattle.dspec_probe.specs.{Rooms.six-few, Texts.text_of};
    ghost use Rattle.dspec_probe.specs.declared.kind.Kind.TheVariants as kind;

    type Left = R;

    ghost fields_are = { Eight ∷ Eight ∷ Eight ∷ Eight ∷ Eight ∷ Eight ∷ [] };

    ghost numbers_of = { λ text. text.words };

    ghost values_of = { text_of 6 };

    ghost kinds_are = { kind.Text ∷ kind.TextNext ∷ kind.TextNext ∷ kind.TextNext ∷ kind.TextNext ∷ kind.TextNext ∷ [] };

    ghost few = { six-few R.places };

    ghost same = { refl };

    #[inline(always)]
    fn count() -> usize {
        6
    }

    #[inline(always)]
    fn fields_after(others: FieldList) -> FieldList {
        <(First, (Next, (Next, (Next, (Next, (Next, ())))))) as Part<
            Place<Place<Place<Place<Place<Place<R>>>>>>,
        >>::fields_after(others)
    }

    #[inline(always)]
    fn kind_at(place: usize) -> Kind {
        <(First, (Next, (Next, (Next, (Next, (Next, ())))))) as Part<
            Place<Place<Place<Place<Place<Place<R>>>>>>,
        >>::kind_at(place)
    }

    #[inline(always)]
    fn numbers_after(self, others: NumberList) -> NumberList {
        let [a, b, c, d, e, f] = self.words;
        <(First, (Next, (Next, (Next, (Next, (Next, ())))))) as Part<
            Place<Place<Place<Place<Place<Place<R>>>>>>,
        >>::numbers_after(
            (
                First(a),
                (Next(b), (Next(c), (Next(d), (Next(e), (Next(f), ()))))),
            ),
            others,
        )
    }

    #[inline(always)]
    fn of_numbers(numbers: &[u64]) -> Option<Self> {
        text_of(numbers)
    }

    #[inline(always)]
    fn pack_after(self, end: usize, words: &mut [u64; 9]) -> usize {
        let [a, b, c, d, e, f] = self.words;
        <(First, (Next, (Next, (Next, (Next, (Next, ())))))) as Part<
            Place<Place<Place<Place<Place<Place<R>>>>>>,
        >>::pack_after(
            (
                First(a),
                (Next(b), (Next(c), (Next(d), (Next(e), (Next(f), ()))))),
            ),
            end,
            words,
        )
    }
}
