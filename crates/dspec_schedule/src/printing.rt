ghost use Rattle.std.specs.{List.enumerate_from, List.flat_map, List.zip, Prelude.◌≡◌, Prelude.◌++◌, Prelude.take, Prelude.drop, Prelude.IfOk, Prelude.OnOk, Prelude.string_bytes};
ghost use Rattle.dspec_schedule.specs.Printed.{actor_text, answer_text, batch_text, call_line, consumer_op_text, count_text, cpu_lines, cpu_op_text, decided_text, events_text, fates_text, op_text};
ghost use Rattle.dspec_schedule.specs.Printed.{opening_text, printed_text, printed_record, records_text, report_line, served_text, spoken_word, printed_stamp, stream_for, stream_line, traced_word};
ghost use Rattle.dspec_schedule.specs.Printed.{values_text, yes_no};

use dspec_deeds::{
    Actor, Answer, ConsumerOp, CpuOp, Decided, Op, Opening, Report, Served, Spoken, Traced,
};
use dspec_interleaving::{Outcome, Series};
use dspec_record::{Header, Rec};
use std::alloc::{AllocError, Global};

/// What a play prints: a line for each ended call, and then a report and a stream for each CPU. Under header 2 each
/// record has its stamp.
pub fn printed(alloc: Global, header: Header, outcome: &Outcome) -> Result<String, AllocError>
    ensures { IfOk result (λ text. string_bytes text ≡ printed_text header outcome.now) }
{
    let mut text = String::new(alloc);
    let streams = outcome.close.accepted.as_slice();
    for (actor, op, answer) in outcome.answers.as_slice() {
        print_call(&mut text, header, streams, actor, op, answer)?;
    }
    print_cpus(&mut text, header, outcome.close.reports.as_slice(), streams)?;
    Ok(text)
}

/// The reports and the streams of all CPUs.
fn print_cpus(
    text: &mut String,
    header: Header,
    reports: &[Report],
    streams: &[Series<Rec>],
) -> Result<(), AllocError>
    ensures { OnOk result (string_bytes text.new ≡ string_bytes text.old
        ++ flat_map (cpu_lines header) (enumerate_from 0 (zip reports.now streams.now))) }
{
    for (cpu, (report, stream)) in reports.iter().zip(streams).enumerate() {
        print_report(text, cpu, report)?;
        print_stream(text, header, cpu, stream)?;
    }
    Ok(())
}

/// The line of an ended call.
fn print_call(
    text: &mut String,
    header: Header,
    streams: &[Series<Rec>],
    actor: &Actor,
    op: &Op,
    answer: &Answer,
) -> Result<(), AllocError>
    ensures { OnOk result (string_bytes text.new ≡ string_bytes text.old ++ call_line header streams.now (actor.now, op.now, answer.now)) }
{
    print_actor(text, *actor)?;
    text.push(' ')?;
    print_op(text, *op)?;
    text.push(' ')?;
    print_answer(text, header, stream_of(streams, *op), *answer)?;
    writeln!(text)
}

/// Who makes a call.
fn print_actor(text: &mut String, actor: Actor) -> Result<(), AllocError>
    ensures { OnOk result (string_bytes text.new ≡ string_bytes text.old ++ actor_text actor) }
{
    match actor {
        Actor::Cpu(cpu) => write!(text, "cpu {cpu}"),
        Actor::Consumer => write!(text, "consumer"),
    }
}

fn print_op(text: &mut String, op: Op) -> Result<(), AllocError>
    ensures { OnOk result (string_bytes text.new ≡ string_bytes text.old ++ op_text op) }
{
    match op {
        Op::Cpu(op) => print_cpu_op(text, op),
        Op::Consumer(op) => print_consumer_op(text, op),
    }
}

/// A call of a CPU, with the identifier that it was given.
fn print_cpu_op(text: &mut String, op: CpuOp) -> Result<(), AllocError>
    ensures { OnOk result (string_bytes text.new ≡ string_bytes text.old ++ cpu_op_text op) }
{
    match op {
        CpuOp::Trace(_) => write!(text, "trace"),
        CpuOp::Speculation => write!(text, "speculation"),
        CpuOp::Speculate(id, _) => write!(text, "speculate {}", id.raw()),
        CpuOp::Commit(id) => write!(text, "commit {}", id.raw()),
        CpuOp::Discard(id) => write!(text, "discard {}", id.raw()),
        CpuOp::Service => write!(text, "service"),
    }
}

/// A call of the consumer, with the CPU that it is about.
fn print_consumer_op(text: &mut String, op: ConsumerOp) -> Result<(), AllocError>
    ensures { OnOk result (string_bytes text.new ≡ string_bytes text.old ++ consumer_op_text op) }
{
    match op {
        ConsumerOp::Ask(cpu) => write!(text, "ask {cpu}"),
        ConsumerOp::Take(cpu) => write!(text, "take {cpu}"),
        ConsumerOp::GiveBack(cpu) => write!(text, "giveback {cpu}"),
        ConsumerOp::Clean => write!(text, "clean"),
        ConsumerOp::Stop => write!(text, "stop"),
    }
}

/// The records accepted of the CPU that a call takes a batch of; none for any other call.
fn stream_of(streams: &[Series<Rec>], op: Op) -> &[Rec]
    ensures { result.now ≡ stream_for streams.now op }
{
    let Op::Consumer(ConsumerOp::Take(cpu)) = op else {
        return &[];
    };
    match streams.get(cpu as usize) {
        Some(stream) => stream.as_slice(),
        None => &[],
    }
}

/// What a call answered, and of a batch the records, which are a part of its CPU's.
fn print_answer(
    text: &mut String,
    header: Header,
    stream: &[Rec],
    answer: Answer,
) -> Result<(), AllocError>
    ensures { OnOk result (string_bytes text.new ≡ string_bytes text.old ++ answer_text header stream.now answer) }
{
    match answer {
        Answer::Traced(traced) => text.push_str(traced_name(traced)),
        Answer::Opening(opening) => print_opening(text, opening),
        Answer::Spoken(spoken) => text.push_str(spoken_name(spoken)),
        Answer::Decided(decided) => print_decided(text, decided),
        Answer::Served(served) => print_served(text, served),
        Answer::AskDone | Answer::StopDone => text.push_str("done"),
        Answer::TookNone => text.push_str("none"),
        Answer::Took { drops, from, count } => print_batch(
            text, header, stream, drops, from, count,
        ),
        Answer::GaveBack(given) => text.push_str(yes_or_no(given)),
        Answer::Cleaned(count) => write!(text, "{count}"),
    }
}

/// What `trace` answered, as it is printed.
fn traced_name(traced: Traced) -> &'static str
    ensures { result.now ≡ traced_word traced }
{
    match traced {
        Traced::Kept => "kept",
        Traced::Dropped => "dropped",
        Traced::Stopped => "stopped",
        Traced::Worn => "worn",
    }
}

/// The identifier that `speculation` gave out, or 0 and why it gave none.
fn print_opening(text: &mut String, opening: Opening) -> Result<(), AllocError>
    ensures { OnOk result (string_bytes text.new ≡ string_bytes text.old ++ opening_text opening) }
{
    match opening {
        Opening::Id(id) => write!(text, "{}", id.raw()),
        Opening::Unavailable => write!(text, "0 unavailable"),
        Opening::Busy => write!(text, "0 busy"),
        Opening::Stopped => write!(text, "0 stopped"),
        Opening::Worn => write!(text, "0 worn"),
    }
}

/// What `speculate` answered, as it is printed.
fn spoken_name(spoken: Spoken) -> &'static str
    ensures { result.now ≡ spoken_word spoken }
{
    match spoken {
        Spoken::Kept => "kept",
        Spoken::Dropped => "dropped",
        Spoken::Void => "void",
        Spoken::Stopped => "stopped",
        Spoken::Worn => "worn",
    }
}

/// What `commit` or `discard` answered, with the number of records.
fn print_decided(text: &mut String, decided: Decided) -> Result<(), AllocError>
    ensures { OnOk result (string_bytes text.new ≡ string_bytes text.old ++ decided_text decided) }
{
    match decided {
        Decided::Copied(count) => write!(text, "copied {count}"),
        Decided::Lost(count) => write!(text, "lost {count}"),
        Decided::Thrown(count) => write!(text, "thrown {count}"),
        Decided::Void => write!(text, "void"),
        Decided::Stopped => write!(text, "stopped"),
        Decided::Worn => write!(text, "worn"),
    }
}

/// What `service` did.
fn print_served(text: &mut String, served: Served) -> Result<(), AllocError>
    ensures { OnOk result (string_bytes text.new ≡ string_bytes text.old ++ served_text served) }
{
    let sealed = yes_or_no(served.sealed);
    let settled = served.settled;
    write!(text, "sealed {sealed} settled {settled}")
}

/// A word for what holds: `yes`, or `no`. Source: the names of the printed output.
pub fn yes_or_no(holds: bool) -> &'static str
    ensures { result.now ≡ yes_no holds }
{
    if holds { "yes" } else { "no" }
}

/// A batch that was taken: the drops before it and its records, `count` of its CPU's from place `from`.
fn print_batch(
    text: &mut String,
    header: Header,
    stream: &[Rec],
    drops: u64,
    from: usize,
    count: u32,
) -> Result<(), AllocError>
    ensures { OnOk result (string_bytes text.new ≡ string_bytes text.old ++ batch_text header stream.now drops from count) }
{
    write!(text, "batch drops {drops} records {count}:")?;
    print_records(text, header, part(stream, from, count as usize))
}

/// So many records from a place on, or those of them that there are.
fn part(records: &[Rec], from: usize, count: usize) -> &[Rec]
    ensures { result.now ≡ take count (drop from records.now) }
{
    let rest = &records[from.min(records.len())..];
    &rest[..count.min(rest.len())]
}

/// The counts of a CPU, each after its name.
fn print_report(text: &mut String, cpu: usize, report: &Report) -> Result<(), AllocError>
    ensures { OnOk result (string_bytes text.new ≡ string_bytes text.old ++ report_line cpu report.now) }
{
    write!(text, "report cpu {cpu}")?;
    print_fates(text, report)?;
    print_events(text, report)?;
    writeln!(text)
}

/// The offered records of a CPU, and those of each fate.
fn print_fates(text: &mut String, report: &Report) -> Result<(), AllocError>
    ensures { OnOk result (string_bytes text.new ≡ string_bytes text.old ++ fates_text report.now) }
{
    print_count(text, "offered", report.offered)?;
    print_count(text, "accepted", report.accepted)?;
    print_count(text, "dropped", report.dropped)?;
    print_count(text, "specdropped", report.specdropped)?;
    print_count(text, "lost", report.lost)?;
    print_count(text, "discarded", report.discarded)?;
    print_count(text, "void", report.void)?;
    print_count(text, "held", report.held)
}

/// The counts of what else befell a CPU.
fn print_events(text: &mut String, report: &Report) -> Result<(), AllocError>
    ensures { OnOk result (string_bytes text.new ≡ string_bytes text.old ++ events_text report.now) }
{
    print_count(text, "drops", report.drops)?;
    print_count(text, "unavailable", report.unavailable)?;
    print_count(text, "busy", report.busy)?;
    print_count(text, "stopped", report.stopped)?;
    print_count(text, "worn", report.worn)
}

fn print_count(text: &mut String, name: &str, count: u64) -> Result<(), AllocError>
    ensures { OnOk result (string_bytes text.new ≡ string_bytes text.old ++ count_text name.now count) }
{
    write!(text, " {name} {count}")
}

/// The records that a CPU accepted.
fn print_stream(
    text: &mut String,
    header: Header,
    cpu: usize,
    stream: &Series<Rec>,
) -> Result<(), AllocError>
    ensures { OnOk result (string_bytes text.new ≡ string_bytes text.old ++ stream_line header cpu stream.now) }
{
    write!(text, "stream cpu {cpu}:")?;
    print_records(text, header, stream.as_slice())?;
    writeln!(text)
}

/// Records, each after a space.
fn print_records(text: &mut String, header: Header, records: &[Rec]) -> Result<(), AllocError>
    ensures { OnOk result (string_bytes text.new ≡ string_bytes text.old ++ records_text header records.now) }
{
    for rec in records {
        text.push(' ')?;
        print_record(text, header, rec)?;
    }
    Ok(())
}

/// Adds the text of a record: its probe identifier, its stamp where the header has one, and its values.
#[tactic(auto, unfolding(crate::specs::Printed::printed_record))]
pub fn print_record(text: &mut String, header: Header, rec: &Rec) -> Result<(), AllocError>
    ensures { OnOk result (string_bytes text.new ≡ string_bytes text.old ++ printed_record header rec.now) }
{
    let epid = rec.epid();
    write!(text, "{epid}")?;
    print_stamp(text, header, rec.stamp())?;
    print_values(text, rec.values())
}

/// The stamp of a record, after an `@`, where its header has one.
fn print_stamp(text: &mut String, header: Header, stamp: u64) -> Result<(), AllocError>
    ensures { OnOk result (string_bytes text.new ≡ string_bytes text.old ++ printed_stamp header stamp) }
{
    match header {
        Header::One => Ok(()),
        Header::Two => write!(text, "@{stamp}"),
    }
}

/// The values of a record, in parentheses where there are any.
fn print_values(text: &mut String, values: &[u64]) -> Result<(), AllocError>
    ensures { OnOk result (string_bytes text.new ≡ string_bytes text.old ++ values_text values.now) }
{
    let Some((first, rest)) = values.split_first() else {
        return Ok(());
    };
    write!(text, "({first}")?;
    for value in rest {
        write!(text, ",{value}")?;
    }
    text.push(')')
}
