//! A schedule that is made up, at which the player and a session have to differ.

use crate::sample::Sample;
use dspec_deeds::{Actor, Config, CpuOp, Turn};
use dspec_record::Rec;
use dspec_schedule::Schedule;
use std::alloc::{AllocError, Global};

/// One of its turns begins a call, which a session makes whole or not at all. The others can be taken out.
pub fn made(alloc: Global) -> Result<Sample, AllocError> {
    let mut turns = Vec::new(alloc);
    if let Some(rec) = Rec::new(7, &[]) {
        turns.push(Turn::RunCpu(0, CpuOp::Trace(rec)))?;
    }
    turns.push(Turn::BeginCpu(0, CpuOp::Service))?;
    turns.push(Turn::Step(Actor::Cpu(0)))?;
    let config = Config {
        max_issues: 8,
        max_calls: 100,
        ..Config::of(1, 1, 64, 64)
    };
    let schedule = Schedule {
        config,
        config_line: 1,
        named_header: None,
        is_policy_named: true,
        enablings: None,
        turns,
        lines: Vec::new(alloc),
    };
    Ok(Sample {
        probes: Vec::new(alloc),
        schedule,
    })
}
