//! What programs need whose paths go from thread to thread, and whose threads are their own. Stands on `dspec` and on the kit's `rtrb`.
//!
//! **Belts.** `belt` gives two ends: the lane that has a path gives it, and the lane that goes on with it takes it up. What comes out is
//! what was put in, in order, each once; only the start takes memory. Each end belongs to one worker, as a part of its state, and
//! moves with it into its thread. `open_within` and `Taker::take_within` look again and again, with a service of the lane between
//! two looks, so that the lanes that they wait for get what they need; after so many looks they give up. `open_settling` and
//! `Taker::take_settling` also settle what is said to the lane meanwhile. At a `Barrier` works that have nothing left to do go on serving until all have come, as `trace` does by itself. A path that is on the belt when
//! that is let go stays undecided: the reports count its records as `held`.
//!
//! **Verdicts.** Often only the reader knows whether a path mattered: how long a request took, a sample, an operator's wish. `board` gives
//! two ends. The sink has the `Judge`: of a word that came to it in a record it says keep or throw, to one of the lanes. The
//! lanes share the `Verdicts`: a worker's loop settles what was said to its own. Or each worker has a `Settler` of its own
//! (`settlers`), as it needs for waits that settle. Between them lies a ring for each lane: what comes out is what was put in, in order, each once. Nothing waits, and only the start takes memory: where a ring is full,
//! `say` answers so. A path of which nothing was said, or of which it was said too late, stays undecided: its records count as
//! `held`, and at the close they are abandoned. A worker that hands paths on goes on settling until it is told of all of them.
//!
//! **A session on threads of the program's own**: a pool, the threads of a server, a loop that runs already. `dspec::trace` starts its
//! threads and joins them; here the program has them, and the library starts none. `Running::start` gives a session that runs, and
//! `Running::lane` a lane for a CPU, as often as that is at home. A lane owns its CPU, so it can move into any thread, and from
//! one to the next. There a worker calls it: `lane.lend(&mut worker)`. Whoever has done with a lane gives it back: it can't be
//! let go otherwise. `Running::free_lane` gives lanes of which nothing is asked: they may be let go, and give themselves back
//! then, so a channel or a queue may have them. `Running::end` closes the session once all lanes are back, in whatever order they
//! came. Meanwhile somebody calls `round`, which hands the sink what there is, and `tend`, which serves those at home. What the
//! close promises of each CPU is what `dspec::trace` promises. A lane can't come back to another session than its own: it knows
//! its way. What a program promises of what its threads do with a lane stands in a type (`Duty`): who gives a lane back owes
//! it, and the promise of the close has it.
//!
//! | File | What is in it |
//! |---|---|
//! | `ends.rt`, `waiting.rt`, `attending.rt`, `barrier.rt` | the two ends of a belt; `open_within` and `take_within`, which serve the lane while they wait; the same that settle too; where works meet at their ends |
//! | `verdict.rt`, `judging.rt` | a verdict; which verdicts may be said of which paths |
//! | `boarding.rt`, `saying.rt`, `settling.rt` | the judge and the lanes' verdicts; the ends of one ring: what says into it, and what settles out of it |
//! | `owned_lane.rt`, `out_lane.rt`, `duty.rt` | `OwnedLane` and `FreeLane`; in them a CPU, what it shares, and its way home, of which `go_home` alone is rid; `Duty`, what is promised of a lane that is given back, and the rule of the ring that carries it |
//! | `way_home.rt`, `place.rt`, `places.rt` | a ring for a way home, through which the CPU goes once as it goes out; the place of a CPU, where it is inside or comes home; all places |
//! | `common.rt`, `running.rt` | what the lanes share, and who has it still; `Running`: the session between its start and its end |
//! | `specs/`: Belts, Waits, Attends | what went over a belt, by its ends; the calls that a lane made while it waited, and what it settled meanwhile |
//! | `specs/`: Said, Settled | what was said, by the ends of rings; what was settled on a lane |
//! | `specs/`: Homes, Places, Runs | who may come home (`ComesHome`); where each CPU is, and which it is (`IsAtPlace`); what a running session keeps (`IsRun`) |
//! | `proofs/` | MoreWaits (a lane serves once more, asks once more in vain, attends once more), MoreVerdicts (a verdict more is said, and done), Homes, Pairs (what holds of each with the one at its place), Whereabouts (one place after another), Runs |
#![tactic(auto)]

mod attending;
mod barrier;
mod boarding;
mod common;
mod duty;
mod ends;
mod judging;
mod out_lane;
mod owned_lane;
mod place;
mod places;
mod running;
mod saying;
mod settling;
mod verdict;
mod waiting;
mod way_home;

pub use attending::open_settling;
pub use barrier::Barrier;
pub use boarding::{Judge, Verdicts, board, settlers};
pub use duty::{Anything, Duty};
pub use ends::{Giver, Taker, belt};
pub use judging::Judging;
pub use owned_lane::{FreeLane, OwnedLane};
pub use running::Running;
pub use saying::Sayer;
pub use settling::{Settler, pair};
pub use verdict::Verdict;
pub use waiting::open_within;
