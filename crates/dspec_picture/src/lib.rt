//! Plays shown: as a picture, the SVG text that shows what the deeds of a play did, one column a deed; and in words, one line for each
//! atomic step, with its turn, its actor, what it loads, stores or exchanges, and the deeds that it enters; where a buffer refused a
//! record or a block, how many bytes that needed and how many were left.
//!
//! It promises that each call ends, that no number overflows, and that it refuses rightly: a list of more deeds than a picture shows is
//! refused so, and no other; told in words, a play is refused where the player refuses it, for the player's reason. What is drawn and what
//! is told is tested, not proved: test_plays compares parts of it with worked values, `tests/pictures` whole texts with stored ones.
//!
//! A picture has a box for each offered record, of the fate that it has in the end; one on its CPU's stream for each accepted record, in
//! the stream's order; a segment for each state of each slot's word. It is XML without a script, with a title for each record, batch and
//! state, which a screen reader reads; what varies in it are numbers, printed records and words of its own, so that nothing has to be
//! escaped. Pictures play nothing and read nothing. Words are told by an onlooker of `dspec_core`'s player.
//!
//! | File | What is in it |
//! |---|---|
//! | `svg.rt` | the text of what a picture is made of: its head and style sheet, words, lines and strokes; records and the legend; states of slots |
//! | `grid.rt`, `fates.rt`, `marks.rt` | where things stand; what became of each offer; what a deed shows in its CPU's band |
//! | `bars.rt`, `drawing.rt` | the segments of a slot; the whole |
//! | `walking.rt` | `steps_of`: who looks on at the player of dspec_core; a line a step |
//! | `showing.rt`, `telling.rt`, `room.rt`, `words.rt` | what the world shows of slots, and the word attempted; what a step does, in words; how many bytes a refused record or block needed; deeds and words as text |
//! | `specs/`, `proofs/` | Tellable (what a call in flight keeps so that its step can be told) |
#![tactic(auto)]

mod bars;
mod drawing;
mod fates;
mod grid;
mod marks;
mod room;
mod showing;
mod svg;
mod telling;
mod walking;
mod words;

pub use drawing::{MOST_DEEDS, PictureFault, picture};
pub use walking::steps_of;
