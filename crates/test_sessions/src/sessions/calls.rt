//! Calls of a session, with what each has to answer, as the tests write them, and what has to be left of a CPU.
use dspec_deeds::{Answer, CpuOp, Decided, Opening, Report, Served, Spoken, Traced};
use dspec_record::{Enablings, Field, Rec};
use dspec_word::SpecId;

/// The most bytes of a text that a call is told.
const MOST_BYTES: usize = 32;

/// The text of a batch.
#[derive(Clone, Copy)]
pub(super) struct Text {
    len: usize,
    bytes: [u8; MOST_BYTES],
}

impl Text {
    /// The text of these bytes, as many of them as a text holds.
    fn new(bytes: &[u8]) -> Text {
        let len = bytes.len().min(MOST_BYTES);
        let mut held = [0; MOST_BYTES];
        held[..len].copy_from_slice(&bytes[..len]);
        Text { len, bytes: held }
    }

    /// Whether these are its bytes.
    pub(super) fn equals(&self, bytes: &[u8]) -> bool {
        self.bytes.get(..self.len) == Some(bytes)
    }
}

/// A call of the consumer, and what it has to answer.
#[derive(Clone, Copy)]
pub(super) enum Dealing {
    /// Asks this CPU, which is there.
    Ask(u32),
    /// Takes a batch of this CPU, which has these drops and this text.
    Take(u32, u64, Text),
    /// Finds no batch of this CPU.
    TakeNone(u32),
    /// Gives the batch that was taken last back.
    GiveBack,
    /// Releases so many slots.
    Clean(u32),
    /// Tells for how many slots this CPU is waited for; None: it isn't there.
    Waits(u32, Option<u32>),
}

/// A call, and what it has to answer.
#[derive(Clone, Copy)]
pub(super) enum Call {
    Cpu(u32, CpuOp, Answer),
    Consumer(Dealing),
    /// The consumer meets each CPU, CPU 0 first.
    Meet,
}

/// What has to be left of a CPU: this text of its last buffer, and its report. No sealed batch is left, and nothing was dropped since the
/// last seal.
#[derive(Clone, Copy)]
pub(super) struct Remains<'a> {
    pub(super) last: &'a [u8],
    pub(super) report: Report,
}

/// This is left of the last buffer.
pub(super) fn left(last: &[u8], report: Report) -> Remains<'_> {
    Remains { last, report }
}

/// The report of a CPU of which so many records were offered, and all accepted.
pub(super) fn all_accepted(count: u64) -> Report {
    Report {
        offered: count,
        accepted: count,
        ..Report::default()
    }
}

/// Four enablings: without a field, with one of 8 bytes, with one of 1 byte and one of 2, and with one of 4.
pub(super) fn enablings() -> Enablings {
    let mut enablings = Enablings::new();
    for fields in [
        &[][..],
        &[Field::Eight],
        &[Field::One, Field::Two],
        &[Field::Four],
    ] {
        let _epid = enablings.enable(fields);
    }
    enablings
}

/// A record without values.
pub(super) fn bare(epid: u32) -> Rec {
    Rec::new(epid, &[]).unwrap()
}

/// A record with one value.
pub(super) fn valued(epid: u32, value: u64) -> Rec {
    Rec::new(epid, &[value]).unwrap()
}

pub(super) fn trace(cpu: u32, rec: Rec, answer: Traced) -> Call {
    Call::Cpu(cpu, CpuOp::Trace(rec), Answer::Traced(answer))
}

pub(super) fn speculation(cpu: u32, answer: Opening) -> Call {
    Call::Cpu(cpu, CpuOp::Speculation, Answer::Opening(answer))
}

/// A speculation that is given this identifier.
pub(super) fn opens(cpu: u32, id: u64) -> Call {
    speculation(cpu, Opening::Id(SpecId::from_raw(id)))
}

pub(super) fn speculate(cpu: u32, id: u64, rec: Rec, answer: Spoken) -> Call {
    let op = CpuOp::Speculate(SpecId::from_raw(id), rec);
    Call::Cpu(cpu, op, Answer::Spoken(answer))
}

pub(super) fn commit(cpu: u32, id: u64, answer: Decided) -> Call {
    let op = CpuOp::Commit(SpecId::from_raw(id));
    Call::Cpu(cpu, op, Answer::Decided(answer))
}

pub(super) fn discard(cpu: u32, id: u64, answer: Decided) -> Call {
    let op = CpuOp::Discard(SpecId::from_raw(id));
    Call::Cpu(cpu, op, Answer::Decided(answer))
}

pub(super) fn service(cpu: u32, sealed: bool, settled: u32) -> Call {
    let answer = Answer::Served(Served { sealed, settled });
    Call::Cpu(cpu, CpuOp::Service, answer)
}

pub(super) fn ask(cpu: u32) -> Call {
    Call::Consumer(Dealing::Ask(cpu))
}

/// Takes a batch of this CPU, with these drops and this text.
pub(super) fn take(cpu: u32, drops: u64, text: &[u8]) -> Call {
    Call::Consumer(Dealing::Take(cpu, drops, Text::new(text)))
}

/// Finds no batch of this CPU.
pub(super) fn take_none(cpu: u32) -> Call {
    Call::Consumer(Dealing::TakeNone(cpu))
}

/// Gives the batch that was taken last back.
pub(super) fn give_back() -> Call {
    Call::Consumer(Dealing::GiveBack)
}

/// Releases so many slots.
pub(super) fn clean(released: u32) -> Call {
    Call::Consumer(Dealing::Clean(released))
}

/// So many slots wait for this CPU.
pub(super) fn waits(cpu: u32, slots: Option<u32>) -> Call {
    Call::Consumer(Dealing::Waits(cpu, slots))
}
