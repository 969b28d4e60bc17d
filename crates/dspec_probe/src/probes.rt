ghost use Rattle.std.specs.Prelude.{◌≡◌, ◌≢◌, ◌≤◌, ◌<◌, ◌+◌, ◌++◌, ◌∷◌, ◌↔◌, [], length, Some, None, IfOk, IsTrue, OnErr, OnOk};
ghost use Rattle.dspec_probe.specs.{Declarations.Declares, Kinds.next_words, declared.fault.ProbeFault.ProbeFault};

use crate::truth::truths;
use crate::{Fields, Kind, Probe, ProbeFault};
use dspec_record::{Enablings, Header};
use std::alloc::Global;
use std::marker::{Model, PhantomData};

/// The most probes that there are.
const MAX_PROBES: u32 = 64;

/// The name of a probe, those of its fields in their order, what their numbers mean, and what their values are called.
#[derive(Debug, Clone, Copy)]
pub struct ProbeNames<'n> {
    /// The probe's.
    pub event: &'n str,
    /// Of each field one; a text has one, whatever words it has.
    pub fields: &'n [&'n str],
    /// Of each field what its number means, and of a text each word; after the last it is Unsigned.
    pub kinds: [Kind; 8],
    /// Of each name what the field's values 0, 1, .. are called, as far as they have labels; None where no field's have.
    pub labels: Option<&'n [&'n [&'n str]]>,
}

impl<'n> ProbeNames<'n> {
    ghost use Rattle.std.specs.Prelude.{replicate};
    ghost use Rattle.dspec_probe.specs.declared.kind.Kind.TheVariants.{Unsigned};

    /// These names, of numbers that mean themselves and have no labels.
    pub fn of(event: &'n str, fields: &'n [&'n str]) -> ProbeNames<'n>
        ensures { result ≡ record { event = event.entry; fields = fields.entry; kinds = replicate 8 Unsigned; labels = None } }
    {
        ProbeNames {
            event,
            fields,
            kinds: [Kind::Unsigned; 8],
            labels: None,
        }
    }
}

/// How many of these are next words of a text.
pub fn next_words(kinds: &[Kind]) -> usize
    ensures count { result ≡ next_words kinds.now }
    ensures few { result ≤ length kinds.now }
{
    let mut count = 0;
    for kind in kinds {
        if *kind == Kind::TextNext {
            count += 1;
        }
    }
    count
}

// Whether so many names are one for each of these fields, but for the next words of texts.
fn has_names(names: usize, kinds: &[Kind; 8], fields: usize) -> bool
    requires { fields ≤ 8 }
    ensures { IsTrue result ↔ (names + next_words kinds.now ≡ fields) }
{
    let next = next_words(kinds);
    next <= fields && names == fields - next
}

/// The probes of a program, as they are declared: what a session wants of them, and what a trace folder wants.
#[derive(Drop)]
pub struct Probes<'n> {
    pub(crate) enablings: Enablings,
    pub(crate) names: Vec<ProbeNames<'n>>,
    pub(crate) truths: Vec<[bool; 8]>,
}

impl<'n> Model for Probes<'n> {
    ghost use Rattle.dspec_probe.specs.Declarations.{Declared, AreNamed};

    ghost Value = { Declared };

    ghost view = { λ i. record { schema = i.enablings; names = i.names.items; truths = i.truths.items } };

    ghost invariant = { λ i. AreNamed i.enablings.rows i.names.items };
}

impl<'n> Probes<'n> {
    ghost use Rattle.dspec_probe.specs.{Declarations.AreNamed, Truths.truths_of};

    /// None yet; each record has a stamp.
    pub fn new(alloc: Global) -> Probes<'n>
        ensures { result ≡ record { schema = record { header = Header.Two; rows = [] }; names = []; truths = [] } }
    {
        Probes {
            enablings: Enablings::new().stamped(),
            names: Vec::new(alloc),
            truths: Vec::new(alloc),
        }
    }

    /// None yet; records have no stamp, and one that is handed in is left out.
    pub fn unstamped(alloc: Global) -> Probes<'n>
        ensures { result ≡ record { schema = record { header = Header.One; rows = [] }; names = []; truths = [] } }
    {
        Probes {
            enablings: Enablings::new(),
            names: Vec::new(alloc),
            truths: Vec::new(alloc),
        }
    }

    // One probe more, if there is room.
    fn declare<F: Fields>(&mut self, names: ProbeNames<'n>) -> Result<Probe<F>, ProbeFault>
        requires { length names.fields.now + next_words names.kinds ≡ length F.fields_are }
        ensures declared { IfOk result (λ p. Declares F.fields_are p names.entry self.old self.new) }
        ensures truths { OnOk result (self.new.truths ≡ self.old.truths ++ truths_of F.values_of (length F.fields_are) ∷ []) }
        ensures refused { OnErr result (self.new ≡ self.old) }
        ensures counted { (result ≢ Err ProbeFault.FieldCount) × (result ≢ Err ProbeFault.LabelCount) }
        ensures too_many { (result ≡ Err ProbeFault.TooMany) ↔ (64 ≤ length self.old.schema.rows) }
    {
        if self.enablings.count() == MAX_PROBES {
            return Err(ProbeFault::TooMany);
        }
        self.truths.reserve(1)?;
        self.names.push(names)?;
        self.truths.push_reserved(truths::<F>());
        let epid = self.enablings.enable(F::fields().as_slice()).unwrap();
        Ok(Probe {
            epid,
            header: self.enablings.header(),
            fields: PhantomData,
        })
    }

    /// Declares a probe: its name, those of its fields, and by its type what they are. A text has one name. An `Err` changes nothing.
    pub fn probe<F: Fields>(
        &mut self,
        event: &'n str,
        fields: &'n [&'n str],
    ) -> Result<Probe<F>, ProbeFault>
        ensures declared { IfOk result (λ p. Declares F.fields_are p (record { event = event.entry; fields = fields.entry; kinds = F.kinds_are; labels = None }) self.old self.new) }
        ensures truths { OnOk result (self.new.truths ≡ self.old.truths ++ truths_of F.values_of (length F.fields_are) ∷ []) }
        ensures refused { OnErr result (self.new ≡ self.old) }
        ensures field_count { (result ≡ Err ProbeFault.FieldCount) ↔ (length fields.now + next_words F.kinds_are ≢ length F.fields_are) }
        ensures label_count { result ≢ Err ProbeFault.LabelCount }
        ensures too_many { (result ≡ Err ProbeFault.TooMany) ↔ ((length fields.now + next_words F.kinds_are ≡ length F.fields_are) × (64 ≤ length self.old.schema.rows)) }
    {
        let kinds = F::kinds();
        if !has_names(fields.len(), &kinds, F::fields().as_slice().len()) {
            return Err(ProbeFault::FieldCount);
        }
        self.declare(ProbeNames {
            event,
            fields,
            kinds,
            labels: None,
        })
    }

    /// As `probe`, of fields whose values have labels: of each field what its values 0, 1, .. are called, an empty list where they
    /// have none. A trace folder shows the label beside the number; of a float or a text it shows none. An `Err` changes nothing.
    pub fn probe_labelled<F: Fields>(
        &mut self,
        event: &'n str,
        fields: &'n [&'n str],
        labels: &'n [&'n [&'n str]],
    ) -> Result<Probe<F>, ProbeFault>
        ensures declared { IfOk result (λ p. Declares F.fields_are p (record { event = event.entry; fields = fields.entry; kinds = F.kinds_are; labels = Some labels.entry }) self.old self.new) }
        ensures truths { OnOk result (self.new.truths ≡ self.old.truths ++ truths_of F.values_of (length F.fields_are) ∷ []) }
        ensures refused { OnErr result (self.new ≡ self.old) }
        ensures field_count { (result ≡ Err ProbeFault.FieldCount) ↔ (length fields.now + next_words F.kinds_are ≢ length F.fields_are) }
        ensures label_count { (result ≡ Err ProbeFault.LabelCount) ↔ ((length fields.now + next_words F.kinds_are ≡ length F.fields_are) × (length labels.now ≢ length fields.now)) }
        ensures too_many { (result ≡ Err ProbeFault.TooMany)
            ↔ ((length fields.now + next_words F.kinds_are ≡ length F.fields_are) × length labels.now ≡ length fields.now × 64 ≤ length self.old.schema.rows) }
    {
        let kinds = F::kinds();
        if !has_names(fields.len(), &kinds, F::fields().as_slice().len()) {
            return Err(ProbeFault::FieldCount);
        }
        if labels.len() != fields.len() {
            return Err(ProbeFault::LabelCount);
        }
        self.declare(ProbeNames {
            event,
            fields,
            kinds,
            labels: Some(labels),
        })
    }

    /// Their fields: what a session wants.
    pub fn enablings(&self) -> Enablings
        ensures { result ≡ self.now.schema }
    {
        self.enablings
    }

    /// Their names, in the order in which they were declared: each has as many as it has fields.
    pub fn names(&self) -> &[ProbeNames<'n>]
        ensures names { result.now ≡ self.now.names }
        ensures named { AreNamed self.now.schema.rows result.now }
    {
        self.names.as_slice()
    }
}
