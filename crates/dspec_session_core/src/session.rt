use crate::consumer::Consumer;
use dspec_cpu::{Cpu, Shared};
use dspec_record::Schema;

/// A session: what its threads share, its CPUs, in order, and its consumer. A thread may take its CPU, or the consumer, by value
/// and give it back.
#[derive(Drop)]
pub struct Session<S: Schema> {
    /// The words, which all threads call by reference.
    pub shared: Shared,
    /// CPU c at place c.
    pub cpus: Vec<Cpu<S>>,
    /// The one that takes batches.
    pub consumer: Consumer,
}
