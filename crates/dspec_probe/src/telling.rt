ghost use Rattle.std.specs.Prelude.{◌≡◌, ◌↔◌, IsTrue, length, option_and_then, slice_get, slice_index_or};
ghost use Rattle.dspec_probe.specs.Telling.{field_meaning, kind_meaning, meaning_text, signed_number, told_record, named_text, told_meaning, told_name, told_name_place, told_number, told_text};
ghost use Rattle.dspec_probe.specs.Telling.{truth_meaning};
ghost use Rattle.dspec_probe.specs.declared.{kind.Kind.TheVariants.Unsigned, telling.Meaning.TheVariants.TextNext};
ghost use Rattle.dspec_record.specs.declared.field.Field.TheVariants as field;
ghost use Rattle.dspec_probe.specs.declared.kind.Kind.TheVariants as kind;

use crate::{FieldList, Kind, ProbeNames, Probes, Value, next_words};
use dspec_record::{Field, Rec};
use std::{fmt, str};

/// What a number of a record says.
#[derive(Debug, Clone, Copy)]
pub enum Meaning<'n> {
    /// The number itself.
    Unsigned(u64),
    /// A number that may be negative.
    Signed(i64),
    /// A truth value.
    Truth(bool),
    /// What the declaration calls it.
    Label(&'n str),
    /// A float of 32 bits.
    Single(f32),
    /// A float of 64 bits.
    Double(f64),
    /// A text.
    Text(ToldText),
    /// A word of the text in front of it, which isn't shown again.
    TextNext,
}

/// A text of a record. It is shown between quotes: quotes and backslashes with a backslash in front, characters for control and bytes
/// that aren't UTF-8 by their numbers, as `\x0a`.
#[derive(Debug, Clone, Copy)]
pub struct ToldText {
    rec: Rec,
    kinds: [Kind; 8],
    place: usize,
}

/// The most bytes that a text of a record has.
const MAX_BYTES: usize = 64;

impl ToldText {
    // How many words it has.
    fn count(&self) -> usize {
        let mut count = 1usize;
        for (place, kind) in self.kinds.iter().enumerate() {
            if place > self.place {
                if *kind != Kind::TextNext {
                    return count;
                }
                count = count.saturating_add(1);
            }
        }
        count
    }

    // Its byte at a place; zero after its last word.
    fn byte(&self, place: usize) -> u8 {
        if place / 8 >= self.count() {
            return 0;
        }
        let word = match self.rec.values().get(self.place.saturating_add(place / 8)) {
            Some(word) => *word,
            None => 0,
        };
        match word.to_le_bytes().get(place % 8) {
            Some(byte) => *byte,
            None => 0,
        }
    }
}

/// How many bytes the character has that begins by this byte, as UTF-8 has it.
fn character_size(first: u8) -> usize {
    match first {
        0..=0x7f => 1,
        0xc2..=0xdf => 2,
        0xe0..=0xef => 3,
        0xf0..=0xf4 => 4,
        _ => 0,
    }
}

// Writes bytes by their numbers.
fn write_numbers<W: fmt::Write>(f: &mut fmt::Formatter<W>, bytes: &[u8]) -> fmt::Result {
    for byte in bytes {
        write!(f, "\\x{byte:02x}")?;
    }
    Ok(())
}

// Writes a character as it stands between quotes.
fn write_character<W: fmt::Write>(f: &mut fmt::Formatter<W>, character: &str) -> fmt::Result {
    match character.as_bytes() {
        [b'"' | b'\\'] => write!(f, "\\{character}"),
        [0..=31 | 127] | [194, 128..=159] => write_numbers(f, character.as_bytes()),
        _ => write!(f, "{character}"),
    }
}

// Writes the character with which these bytes begin, or their first byte by its number; answers how many bytes that were.
fn write_first<W: fmt::Write>(
    f: &mut fmt::Formatter<W>,
    bytes: &[u8],
) -> Result<usize, fmt::Error> {
    let Some(first) = bytes.first() else {
        return Ok(1);
    };
    let size = character_size(*first);
    if size >= 1 && size <= bytes.len() {
        if let Ok(character) = str::from_utf8(&bytes[..size]) {
            write_character(f, character)?;
            return Ok(size);
        }
    }
    write_numbers(f, &[*first])?;
    Ok(1)
}

impl fmt::Display for ToldText {
    fn fmt<W: fmt::Write>(&self, f: &mut fmt::Formatter<W>) -> fmt::Result {
        let mut bytes = [0; MAX_BYTES];
        let mut size = 0;
        for place in 0..MAX_BYTES {
            let byte = self.byte(place);
            if byte == 0 {
                break;
            }
            bytes[place] = byte;
            size = place + 1;
        }
        write!(f, "\"")?;
        let mut shown = 0;
        for place in 0..size {
            if place >= shown {
                shown = place.saturating_add(write_first(f, &bytes[place..size])?);
            }
        }
        write!(f, "\"")
    }
}

// A number of this width in two's complement.
fn signed_number(width: Field, number: u64) -> Option<i64>
    ensures { result ≡ signed_number width number }
{
    Some(match width {
        Field::One => i64::from(i8::value(number)?),
        Field::Two => i64::from(i16::value(number)?),
        Field::Four => i64::from(i32::value(number)?),
        Field::Eight => i64::value(number)?,
    })
}

impl<'n> Meaning<'n> {
    // A number that is signed, if it is one of this width.
    fn signed(width: Field, number: u64) -> Meaning<'n>
        ensures { result ≡ kind_meaning kind.Signed width number }
    {
        match signed_number(width, number) {
            Some(signed) => Meaning::Signed(signed),
            None => Meaning::Unsigned(number),
        }
    }

    // A float of four bytes, if it is one.
    fn single(number: u64) -> Meaning<'n>
        ensures { result ≡ kind_meaning kind.Float field.Four number }
    {
        match f32::value(number) {
            Some(float) => Meaning::Single(float),
            None => Meaning::Unsigned(number),
        }
    }

    // A float of eight.
    fn double(number: u64) -> Meaning<'n>
        ensures { result ≡ kind_meaning kind.Float field.Eight number }
    {
        match f64::value(number) {
            Some(float) => Meaning::Double(float),
            None => Meaning::Unsigned(number),
        }
    }

    // By the kind alone.
    fn by_kind(kind: Kind, width: Field, number: u64) -> Meaning<'n>
        ensures { result ≡ kind_meaning kind width number }
    {
        match (kind, width) {
            (Kind::Signed, _) => Meaning::signed(width, number),
            (Kind::Float, Field::Four) => Meaning::single(number),
            (Kind::Float, Field::Eight) => Meaning::double(number),
            _ => Meaning::Unsigned(number),
        }
    }

    // Whether it is a word that is shown with the text in front.
    fn is_next_word(&self) -> bool
        ensures { IsTrue result ↔ (self.now ≡ TextNext) }
    {
        match *self {
            Meaning::TextNext => true,
            _ => false,
        }
    }

    // Of a field that may be a truth value.
    fn by_truth(truth: bool, kind: Kind, width: Field, number: u64) -> Meaning<'n>
        ensures { result ≡ truth_meaning truth kind width number }
    {
        if !truth || number > 1 {
            return Meaning::by_kind(kind, width, number);
        }
        Meaning::Truth(number == 1)
    }
}

// What the declaration calls a number of the field at this place.
fn label_of<'n>(names: &ProbeNames<'n>, place: usize, number: u64) -> Option<&'n str>
    ensures { result ≡ option_and_then (λ all. option_and_then (λ ls. slice_get ls.now number) (slice_get all.now place)) names.now.labels }
{
    let labels = names.labels?;
    let labels = labels.get(place)?;
    labels.get(number as usize).copied()
}

// What the number of the field at this place says.
fn field_meaning<'n>(
    names: &ProbeNames<'n>,
    truth: bool,
    kind: Kind,
    width: Field,
    place: usize,
    number: u64,
) -> Meaning<'n>
    ensures { result ≡ field_meaning names.now truth kind width place number }
{
    if kind == Kind::Float {
        return Meaning::by_kind(kind, width, number);
    }
    match label_of(names, place, number) {
        Some(label) => Meaning::Label(label),
        None => Meaning::by_truth(truth, kind, width, number),
    }
}

impl fmt::Display for Meaning<'_> {
    ghost output = { meaning_text };

    fn fmt<W: fmt::Write>(&self, f: &mut fmt::Formatter<W>) -> fmt::Result {
        match *self {
            Meaning::Unsigned(number) => write!(f, "{number}"),
            Meaning::Signed(number) => write!(f, "{number}"),
            Meaning::Truth(truth) => write!(f, "{truth}"),
            Meaning::Label(label) => write!(f, "{label}"),
            Meaning::Single(float) => write!(f, "{float}"),
            Meaning::Double(float) => write!(f, "{float}"),
            Meaning::Text(text) => write!(f, "{text}"),
            Meaning::TextNext => Ok(()),
        }
    }
}

/// A field of a record that is told. It is shown as ` name=value`, with a space in front.
#[derive(Debug, Clone, Copy)]
pub struct ToldField<'n> {
    /// Its name.
    pub name: &'n str,
    /// What its number says.
    pub meaning: Meaning<'n>,
}

impl fmt::Display for ToldField<'_> {
    ghost output = { λ f. named_text f.name.now f.meaning };

    fn fmt<W: fmt::Write>(&self, f: &mut fmt::Formatter<W>) -> fmt::Result {
        let (name, meaning) = (self.name, &self.meaning);
        if meaning.is_next_word() {
            return Ok(());
        }
        write!(f, " {name}={meaning}")
    }
}

/// A record as text, by the declaration of its probe: the probe's name, and after it each field by its name, as
/// `end request=0 done=false micros=11857`. A number that has a label is told by that, a truth value as `true` or `false`, a signed
/// number and a float as what they are, a text between quotes. How a float and a text are written isn't promised.
#[derive(Debug, Clone, Copy)]
pub struct Told<'n> {
    names: ProbeNames<'n>,
    truths: [bool; 8],
    fields: FieldList,
    rec: Rec,
}

impl<'n> Told<'n> {
    /// How many fields it has.
    pub fn count(&self) -> usize
        ensures { result ≡ length self.now.rec.values }
    {
        self.rec.values().len()
    }

    /// The field at this place, counted from 0; after the last one without a name.
    pub fn field(&self, place: usize) -> ToldField<'n>
        ensures name { result.name.now ≡ told_name self.now place }
        ensures meaning { result.meaning ≡ told_meaning self.now place }
    {
        ToldField {
            name: self.name(place),
            meaning: self.meaning(place),
        }
    }

    // The place of its name: each word of a text has the text's.
    fn name_place(&self, place: usize) -> usize
        ensures { result ≡ told_name_place self.now place }
    {
        if place >= 8 {
            return place;
        }
        place.saturating_sub(next_words(&self.names.kinds[..place + 1]))
    }

    // Its name.
    fn name(&self, place: usize) -> &'n str
        ensures { result.now ≡ told_name self.now place }
    {
        match self.names.fields.get(self.name_place(place)) {
            Some(name) => *name,
            None => "",
        }
    }

    // What the number of a field means.
    fn kind(&self, place: usize) -> Kind
        ensures { result ≡ slice_index_or self.now.names.kinds place Unsigned }
    {
        match self.names.kinds.get(place) {
            Some(kind) => *kind,
            None => Kind::Unsigned,
        }
    }

    // What its number says.
    fn meaning(&self, place: usize) -> Meaning<'n>
        ensures { result ≡ told_meaning self.now place }
    {
        match self.kind(place) {
            Kind::Text => Meaning::Text(ToldText {
                rec: self.rec,
                kinds: self.names.kinds,
                place,
            }),
            Kind::TextNext => Meaning::TextNext,
            kind => self.number_meaning(kind, place),
        }
    }

    // What a number says that is no word of a text.
    fn number_meaning(&self, kind: Kind, place: usize) -> Meaning<'n>
        ensures { result ≡ told_number self.now kind place }
    {
        let truth = match self.truths.get(place) {
            Some(truth) => *truth,
            None => false,
        };
        let width = match self.fields.as_slice().get(place) {
            Some(width) => *width,
            None => Field::Eight,
        };
        let number = match self.rec.values().get(place) {
            Some(number) => *number,
            None => 0,
        };
        field_meaning(
            &self.names,
            truth,
            kind,
            width,
            self.name_place(place),
            number,
        )
    }
}

impl fmt::Display for Told<'_> {
    ghost output = { told_text };

    fn fmt<W: fmt::Write>(&self, f: &mut fmt::Formatter<W>) -> fmt::Result {
        let event = self.names.event;
        write!(f, "{event}")?;
        for place in 0..self.count() {
            let field = self.field(place);
            write!(f, "{field}")?;
        }
        Ok(())
    }
}

impl<'n> Probes<'n> {
    /// A record of one of these probes, told by its declaration. None where it is of no probe of these, by its EPID or by how many
    /// values it has.
    pub fn tell(&self, rec: &Rec) -> Option<Told<'n>>
        ensures { result ≡ told_record self.now rec.now }
    {
        let fields = self.enablings.fields(rec.epid())?;
        let place = (rec.epid() as usize).saturating_sub(1);
        let names = *self.names.get(place)?;
        let truths = *self.truths.get(place)?;
        if fields.len() != rec.values().len() {
            return None;
        }
        Some(Told {
            names,
            truths,
            fields: FieldList::of(fields),
            rec: *rec,
        })
    }
}
