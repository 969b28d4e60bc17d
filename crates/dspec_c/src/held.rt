use crate::boxed::Boxed;
use crate::consumer_side::ConsumerSide;
use crate::ended::EndedSession;
use crate::out_cpu::OutCpu;
use crate::under_way::UnderWay;
use dspec_ctf::CpuPackets;
use dspec_parking::Parking;
use dspec_paths::Paths;
use dspec_record::Enablings;

/// What a handle can hold. It can't be let go as it is: a CPU or the consumer that was handed out has to go home.
pub enum HandleValue {
    /// Nothing yet, or nothing any more.
    Nothing,
    /// A schema, which grows.
    Schema(Boxed<Enablings>),
    /// A session.
    Session(UnderWay),
    /// One CPU.
    Cpu(OutCpu),
    /// The consumer.
    Consumer(ConsumerSide),
    /// A session that has ended.
    Closed(EndedSession),
    /// The files of a CPU in a trace.
    Files(Boxed<CpuPackets>),
    /// The open paths of a CPU.
    Paths(Boxed<Paths>),
    /// A ring of parked blocks.
    Parking(Boxed<Parking>),
}

impl HandleValue {
    /// Lets it go. A CPU or the consumer that was handed out goes home.
    pub fn let_go(self) {
        match self {
            HandleValue::Nothing => {}
            HandleValue::Schema(schema) => drop(schema),
            HandleValue::Session(whole) => drop(whole),
            HandleValue::Cpu(out) => drop(out.go_home()),
            HandleValue::Consumer(side) => drop(side.go_home()),
            HandleValue::Closed(ended) => drop(ended),
            HandleValue::Files(files) => drop(files),
            HandleValue::Paths(paths) => drop(paths),
            HandleValue::Parking(parking) => drop(parking),
        }
    }
}
