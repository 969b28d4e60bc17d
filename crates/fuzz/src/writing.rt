//! A schedule as text, as the programs `specplay` and `specview` read it, and a difference.

use crate::comparing::ScheduleOutcome;
use crate::sample::{Sample, SampleFields};
use dspec_deeds::{Config, ConsumerOp, CpuOp, Policy, Turn};
use dspec_record::{Field, Header, Rec};
use dspec_replay::SessionFault;
use std::alloc::{AllocError, Global};

fn write_config(text: &mut String, config: &Config) -> Result<(), AllocError> {
    let Config {
        cpus,
        nspec,
        bufsize,
        specsize,
        max_issues,
        max_calls,
        policy,
    } = config;
    write!(text, "config {cpus} {nspec} {bufsize} {specsize} ")?;
    writeln!(text, "{max_issues} {max_calls}")?;
    match policy {
        Policy::Switch => writeln!(text, "policy switch"),
        Policy::Fill => writeln!(text, "policy fill"),
    }
}

fn write_probe(text: &mut String, probe: &SampleFields) -> Result<(), AllocError> {
    text.push_str("enable")?;
    for field in probe.fields() {
        text.push_str(match field {
            Field::One => " 1",
            Field::Two => " 2",
            Field::Four => " 4",
            Field::Eight => " 8",
        })?;
    }
    text.push('\n')
}

fn write_record(text: &mut String, header: Header, rec: &Rec) -> Result<(), AllocError> {
    let (epid, stamp) = (rec.epid(), rec.stamp());
    match header {
        Header::One => write!(text, " {epid}")?,
        Header::Two => write!(text, " {epid}@{stamp}")?,
    }
    for value in rec.values() {
        write!(text, " {value}")?;
    }
    Ok(())
}

fn write_cpu_op(text: &mut String, header: Header, op: &CpuOp) -> Result<(), AllocError> {
    match op {
        CpuOp::Trace(rec) => {
            text.push_str("trace")?;
            write_record(text, header, rec)
        }
        CpuOp::Speculation => text.push_str("speculation"),
        CpuOp::Speculate(id, rec) => {
            write!(text, "speculate {}", id.raw())?;
            write_record(text, header, rec)
        }
        CpuOp::Commit(id) => write!(text, "commit {}", id.raw()),
        CpuOp::Discard(id) => write!(text, "discard {}", id.raw()),
        CpuOp::Service => text.push_str("service"),
    }
}

fn write_consumer_op(text: &mut String, op: &ConsumerOp) -> Result<(), AllocError> {
    match op {
        ConsumerOp::Ask(cpu) => write!(text, "ask {cpu}"),
        ConsumerOp::Take(cpu) => write!(text, "take {cpu}"),
        ConsumerOp::GiveBack(cpu) => write!(text, "giveback {cpu}"),
        ConsumerOp::Clean => text.push_str("clean"),
        ConsumerOp::Stop => text.push_str("stop"),
    }
}

fn write_turn(text: &mut String, header: Header, turn: &Turn) -> Result<(), AllocError> {
    match turn {
        Turn::RunCpu(cpu, op) => {
            write!(text, "run {cpu} ")?;
            write_cpu_op(text, header, op)?;
        }
        Turn::RunConsumer(op) => {
            text.push_str("run consumer ")?;
            write_consumer_op(text, op)?;
        }
        Turn::BeginCpu(..) | Turn::BeginConsumer(_) | Turn::Step(_) => {
            text.push_str("# no whole call")?;
        }
    }
    text.push('\n')
}

fn write_schedule(text: &mut String, sample: &Sample) -> Result<(), AllocError> {
    let schedule = &sample.schedule;
    write_config(text, &schedule.config)?;
    match schedule.header() {
        Header::One => writeln!(text, "header 1")?,
        Header::Two => writeln!(text, "header 2")?,
    }
    for probe in &sample.probes {
        write_probe(text, probe)?;
    }
    for turn in &schedule.turns {
        write_turn(text, schedule.header(), turn)?;
    }
    Ok(())
}

fn write_halt(text: &mut String, fault: &SessionFault) -> Result<(), AllocError> {
    match fault {
        SessionFault::Play(fault) => writeln!(text, "{fault}"),
        SessionFault::NoWholeCall(turn) => writeln!(text, "turn {turn} is no whole call"),
        SessionFault::NoText(cpu) => writeln!(text, "cpu {cpu}: a buffer that is no text"),
    }
}

fn write_told(text: &mut String, who: &str, told: &ScheduleOutcome) -> Result<(), AllocError> {
    match told {
        ScheduleOutcome::Printed(lines) => write!(text, "-- {who} prints:\n{lines}"),
        ScheduleOutcome::Refused(fault) => writeln!(text, "-- {who} refuses it: {fault}"),
        ScheduleOutcome::CantGoOn(fault) => {
            write!(text, "-- {who} can't go on: ")?;
            write_halt(text, fault)
        }
    }
}

/// A schedule, and what the player and a session made of it.
pub fn difference(
    alloc: Global,
    sample: &Sample,
    player: &ScheduleOutcome,
    session: &ScheduleOutcome,
) -> Result<String, AllocError> {
    let mut text = String::new(alloc);
    write_schedule(&mut text, sample)?;
    write_told(&mut text, "the player", player)?;
    write_told(&mut text, "the session", session)?;
    Ok(text)
}
