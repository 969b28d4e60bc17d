//! The machine behind a world: words, and of each CPU its side and its call in flight, moved one atomic step at a time. Each step
//! leaves what the definition of a play says, and a machine that shows its list of deeds (`specs/Shown.antt`,
//! `specs/Machines.antt`), over any schema and any buffer.
mod beginning;
mod consuming;
pub mod cpu;
mod decision;
mod entering;
mod finishing;
mod measuring;
mod reporting;
mod seen;
mod showing;
mod starting;
mod stepping;
mod table;
mod walking;

use crate::machine::cpu::Cpu;
use dspec_deeds::{Config, Deed};
use dspec_interleaving::{ConsumerProgress, Series};
use dspec_word::Word;

/// A session as its atomic steps left it: the shared words, what is kept of each CPU and of the consumer, and the
/// list of deeds.
#[derive(Drop)]
pub struct Machine<S, B> {
    /// What the session was set up with.
    pub config: Config,
    /// Which records there are, and of which bytes.
    pub schema: S,
    /// The word of each slot; that of slot 1 comes first.
    pub words: Vec<Word>,
    /// Whether the session was stopped.
    pub halted: bool,
    /// What is kept of each CPU.
    pub cpus: Vec<Cpu<B>>,
    /// The consumer's call in flight.
    pub consumer: ConsumerProgress,
    /// What was done, in order of time.
    pub deeds: Series<Deed>,
}
