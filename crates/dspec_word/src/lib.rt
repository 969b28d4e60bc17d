//! Words of slots, identifiers of speculations, and the tables of what each call does at a word.
//!
//! A slot's word counts how often the slot was released and tells where its present speculation
//! stands; an identifier is a slot and such a count, so it names one speculation for good. Six
//! tables say what `speculate`, `commit`, `discard`, `speculation`, `service` and `clean` do at the
//! word that they are shown. Promised: each table is its definition in `specs/Tables.antt`; words
//! and identifiers are the numbers of `specs/Word.antt` and `specs/SpecId.antt`; every attempt is a
//! greater word, of the same issue or inactive of the next (`Rises`, by the law `attempts_rise`), so
//! no word comes twice and a stale exchange fails. No call takes memory. It stands on no other
//! crate of this repository.
//!
//! | File | What is in it |
//! |---|---|
//! | `code.rt`, `word.rt`, `id.rt`, `act.rt` | `Code`; `Word`, which holds its number alone (`specs/WordFields`); `SpecId`; `Act` |
//! | `speculating.rt`, `committing.rt`, `discarding.rt`, `turnover.rt` | the tables |
//! | `laws.rt` | that attempts rise, and the numbers |
//! | `specs/`: Word, SpecId, Tables | a word as its issue and code, an identifier as its issue and slot, so nobody above divides a number; the tables |
#![tactic(auto)]

pub use act::Act;
pub use code::Code;
pub use committing::commit_at;
pub use discarding::discard_at;
pub use id::SpecId;
pub use laws::{attempts_rise, numbers_are_unique, order_is_of_numbers};
pub use speculating::speculate_at;
pub use turnover::{open_at, reap_at, settle_at};
pub use word::Word;

mod act;
mod code;
mod committing;
mod discarding;
mod id;
mod laws;
mod speculating;
mod turnover;
mod word;
