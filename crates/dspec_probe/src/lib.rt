//! Probes by the types of their fields: declared once, with names and types, by which a program's schema, the records of its values
//! and the values of its records are known.
//!
//! Which number a record has of a value, and which value a number stands for, says the trait `Value` (`specs/Values.antt`); a `Text` is as
//! many numbers as it has words (`specs/Texts.antt`), and `Fields` are both together, up to eight numbers (`specs/Parts.antt`, and
//! `specs/Kinds.antt` for their names). A probe's record is one of each schema that has the probe, its text is
//! `record_text` of its fields, and `read` gives back what was handed in (`specs/Probes.antt`). A `Fired` is such a record that knows
//! its shape and its bytes by its type, so that no schema is asked for them: each schema that has the probe says the same. What a
//! declaration adds stands in `specs/Declarations.antt`. Stands on `dspec_record`.
#![tactic(auto)]

pub mod fault;
pub mod field_list;
pub mod fields;
pub mod fired;
pub mod kind;
mod number_list;
pub mod part;
pub mod probe;
pub mod probes;
pub mod telling;
pub mod text;
mod truth;
pub mod tuples;
pub mod value;

pub use fault::ProbeFault;
pub use field_list::FieldList;
pub use fields::Fields;
pub use fired::Fired;
pub use kind::Kind;
pub use part::{Eight, Full, Part, Place, Room};
pub use probe::Probe;
pub use probes::{ProbeNames, Probes, next_words};
pub use telling::{Meaning, Told, ToldField, ToldText};
pub use text::{Text, text_bytes};
pub use tuples::Tuple;
pub use value::Value;
