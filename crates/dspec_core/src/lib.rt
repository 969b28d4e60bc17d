//! The pure core: what is done on every CPU and by the consumer, as one list of deeds, and a session that makes it step by
//! atomic step.
//!
//! It promises that each begin and each step leaves what the definition of a play says (`specs/Play.antt` and
//! `specs/Turns.antt` of `dspec_interleaving`), that the list of deeds is legal throughout (`specs/Legal.antt` of `dspec_deeds`), that
//! words, buffers and counts show it (`specs/Machines.antt`), and that the headline is true of it: `World`
//! for every interleaving over any schema and any buffer, `play` for whole schedules over lists. Users `use` this crate alone:
//! it gives what `dspec_deeds` and `dspec_interleaving` have. Where a `Series` is gone over by `for`, or a deed or a fault is printed,
//! crates.txt names both too, since those impls stand there.
//!
//! | File | What is in it |
//! |---|---|
//! | `world.rt` | `World`, the public session, over any schema and buffer |
//! | `player.rt`, `onlooker.rt` | `play`, over lists; `Onlooker`, who is shown a play step by step |
//! | `machine.rt`, `machine/cpu.rt` | `Machine`, the state behind a world; `Cpu`: the call in flight, the side, the second principal buffer, the stream and what was taken |
//! | `machine/`: `seen.rt`, `measuring.rt`, `showing.rt` | what a step sees, and what it makes of its CPU; how that is read off the machine |
//! | `machine/`: `table.rt` | the one table of steps: what a step makes of what it sees |
//! | `machine/`: `entering.rt`, `entering/`, `decision.rt` | which deeds a step enters; what one deed makes of a machine; commit and discard as one, and the words that steps leave |
//! | `machine/`: `stepping.rt`, `consuming.rt`, `walking.rt` | the driver of a CPU's steps; those of the consumer; the records of a buffer, after others |
//! | `machine/`: `starting.rt`, `beginning.rt`, `reporting.rt`, `finishing.rt` | the start, a begin, a report, the close |
//! | `specs/`: Shown, Machines, Standing, Closings | `ShowsCpu`: the side shows the list of all; the machine; where the consumer's call stands; what can be closed, and what the close makes of it |
//! | `specs/`: Worlds, Table, Steps, Decisions, WorldViews | `WorldInvariant`, with `IsWithin` and what deeds may come; the table by what is seen; the steps; decisions; what a world keeps |
//! | `proofs/`, of a CPU | KeptCpus (after its own deed, another's, a release, a slot given out, a seal, a worn call), OwnSlots, OwnBlocks, OwnDeeds, AckReads, DecidedCpus, Rooms, Within, Batches, WordsShown, OneMore, SlotReads |
//! | `proofs/`, of a step | Seeing, StepRecords, Entries, Driving |
//! | `proofs/`, of a machine, a world and the player | Makings, CleanMakings, MachineReads, SoloDiscards, TakenBatches; Starts, Keepings, PromiseKept, Settlings, Collected; PlayerSteps |
#![tactic(auto)]

mod machine;
mod onlooker;
mod player;
mod world;

pub use dspec_deeds::{
    Actor, Answer, Config, ConsumerOp, CpuOp, DecideFate, Decided, Deed, Op, Opening, Policy,
    Report, Served, SpeculateFate, Spoken, StartFault, TraceFate, Traced, Turn, acceptance_law,
    bare_shows, batch_drops, closed_for_good, common_part, empty_fits, fate_law, full_drops,
    given_below, late_once, never_sealed, others_leave, own_marks, own_parts, own_reads,
    own_report, own_sides, placed_seals, prefix_law, refused_closes, settled_once, weaving,
    word_changes, woven_headline,
};
pub use dspec_interleaving::{
    BeginFault, Close, Outcome, PlayFault, Series, StepFault, Stepped, bounded_steps,
    close_is_legal, schedule_answers, schedule_legality, solo_rule, whole_calls, whole_plays,
    whole_release, worn_rule, woven_close,
};
pub use onlooker::Onlooker;
pub use player::{play, play_shown};
pub use world::World;
