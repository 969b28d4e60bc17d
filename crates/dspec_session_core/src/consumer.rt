use crate::counted::CountedEnd;
use crate::left::Left;
use crate::parted::Parted;
use dspec_deeds::Config;
use dspec_table::{ConsumerSeat, CpuSeat};
use std::marker::Model;

/// The consumer of a session: its seat at the shared words and, for each CPU, its end of that CPU's rings. It can move to
/// another thread. It keeps the room in which the session ends, so that no memory is taken then.
#[derive(Drop)]
pub struct Consumer {
    pub(crate) config: Config,
    pub(crate) seat: ConsumerSeat,
    pub(crate) ends: Vec<CountedEnd>,
    /// Empty, with room for the seats of all CPUs.
    pub(crate) seats: Vec<CpuSeat>,
    /// Empty, with room for what the CPUs part from their seats as.
    pub(crate) parted: Vec<Parted>,
    /// Empty, with room for what is left of each CPU.
    pub(crate) left: Vec<Left>,
}

impl Model for Consumer {
    ghost use Rattle.dspec_session_core.specs.Consumers.{Consuming};

    ghost Value = { Consuming };

    ghost use Rattle.dspec_session_core.specs.ConsumerFields.{consuming, IsConsumer};

    ghost view = { consuming };

    ghost invariant = { IsConsumer };
}
