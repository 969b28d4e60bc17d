//! Records, their layouts and the codec between records and bytes.
//!
//! A record is an enabled probe identifier (EPID), a stamp and a list of values; a schema says which records
//! there are and how each one stands in a buffer. The crate promises that `put` writes exactly the text of
//! a record, that `get` reads exactly what `put` writes, and that it names the fault of anything else. What a
//! layout and a text are stands in `specs/Layout.antt` and `specs/RecordText.antt`, what `get` answers in
//! `specs/Reading.antt`, and how the three schemas of the crate come from these in `specs/Schemas.antt`. The laws
//! that every schema keeps are those of the trait `Schema`, and what follows from them is a clause in `laws`. The
//! crate stands on std alone, and no call of it takes memory.
//!
//! | File | What is in it |
//! |---|---|
//! | `header.rt`, `field.rt`, `record.rt` | `Header`; `Field` and `Shape`; `Rec`, into which a reader puts a record field by field (`bare`, `add`) |
//! | `recorded.rt`, `borrowed.rt` | the trait `Recorded`: what can be traced as a record, a reference to a `Rec`, a `BorrowedRec`, whose values stand elsewhere, or a reference to a `Packed` |
//! | `packed.rt`, `packing.rt`, `known_header.rt` | `Packed`: a record whose text its caller packed into words of eight bytes, and what is worked out once of an enabling for it; headers that are known when a program is compiled |
//! | `laid_out.rt` | the parts of writing a typed record, from C or from Rattle: its values added to words, the words written with EPID and stamp |
//! | `schema.rt`, `laws.rt` | the trait `Schema`; what follows from its laws over every schema |
//! | `enabling.rt`, `enabled.rt` | `Enablings`. An enabling keeps its layout, each field's place, without a stamp (with one each size is eight more), each field's greatest value, and which bits of its words are bits of fields; all of them how many bytes a stamp has, and the claim that is true of each |
//! | `default_action.rt`, `stamped_action.rt` | the schemas without fields |
//! | `layout.rt`, `codec.rt` | places and greatest values of fields, writing and reading |
//! | `specs/`: Record, EnablingRows | a record as contracts see it: EPID, stamp, list of values; enablings as their header and rows of fields |
//! | `specs/`: Layout, RecordText, Reading | where fields stand; the bytes; what reading answers |
//! | `specs/`: Packing | which record words stand for, what is claimed of it, which bits count |
//! | `specs/`: Writing | a value is written in eight bytes, so that the zeros of the gap after it come with it |
#![tactic(auto)]

mod borrowed;
mod codec;
mod default_action;
mod enabled;
mod enabling;
pub mod field;
pub mod header;
mod known_header;
pub mod laid_out;
pub mod laws;
mod layout;
pub mod packed;
mod packing;
pub mod reading;
mod record;
mod recorded;
pub mod schema;
mod stamped_action;

pub use borrowed::BorrowedRec;
pub use default_action::DefaultAction;
pub use enabling::{Enablings, SchemaFault};
pub use field::{Field, Shape};
pub use header::Header;
pub use known_header::{KnownHeader, Stamped, Unstamped};
pub use packed::Packed;
pub use reading::ReadKind;
pub use record::Rec;
pub use recorded::Recorded;
pub use schema::Schema;
pub use stamped_action::StampedAction;
