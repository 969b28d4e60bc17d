//! Memory that is refused while a session's CPUs are made. `tests/refused-growth` refuses one growth after another; in an ordinary run
//! none is.
use super::playing::{call, same, session};
use dspec_deeds::{Answer, Config, CpuOp, Policy, StartFault, Traced};
use dspec_record::{DefaultAction, Rec};
use std::alloc::AllocError;
use std::process::Abort;
use std::test::Fail;

/// What the first of two CPUs with buffers for three slots each answers to a trace.
fn served(rt: &(impl Abort + AllocGlobal)) -> Result<Answer, StartFault> {
    let config = Config {
        cpus: 2,
        nspec: 3,
        bufsize: 16,
        specsize: 8,
        max_issues: 8,
        max_calls: 100,
        policy: Policy::Switch,
    };
    let (mut cpus, _, _) = session(rt.alloc(), &config, DefaultAction)?;
    let trace = CpuOp::Trace(Rec::new(1, &[]).unwrap());
    Ok(call(rt, &DefaultAction, &cpus.shared, &mut cpus.first, &trace))
}

/// Refused, it asks once more, and is served as ever.
#[test]
fn refused_growth(rt: HostRuntime) {
    let answer = match served(&rt) {
        Err(StartFault::Memory) => served(&rt),
        answer => answer,
    };
    same(&rt, answer, Ok(Answer::Traced(Traced::Kept)));
}

/// It asks once: where a growth is refused the answer is want of memory and no other fault.
#[test]
fn asked_once(rt: HostRuntime) -> Result<(), Fail> {
    match served(&rt) {
        Ok(_) => Ok(()),
        Err(StartFault::Memory) => Err(AllocError.into()),
        Err(_) => Err("a fault that isn't there".into()),
    }
}
