//! Why there is no session, and what is told where records weren't kept.
use dspec::{
    Config, Enablings, Lane, ReadFault, RecordSink, RecordSinkFault, StartFault, Work, trace,
};
use dspec_record::ReadKind;
use std::test::Fail;

/// Does nothing.
#[derive(Drop)]
struct Idle {}

impl Work<Enablings> for Idle {
    fn work(&self, _lane: &mut Lane<'_, Enablings>) {}
}

/// The first number of a configuration that is out of range is told.
#[test]
fn refused_configurations(rt: HostRuntime) -> Result<(), Fail> {
    for (config, wanted) in [
        (Config::of(0, 0, 64, 64), StartFault::Cpus),
        (Config::of(65, 4, 64, 64), StartFault::Cpus),
        (Config::of(1, 64, 63, 64), StartFault::Specs),
        (Config::of(1, 4, 63, 63), StartFault::BufSize),
        (Config::of(1, 4, 64, 0), StartFault::SpecSize),
    ] {
        let mut sink = RecordSink::new(rt.alloc());
        let work = Idle {};
        let Err(fault) = trace(&rt, rt.alloc(), &config, Enablings::new(), &work, &mut sink) else {
            return Err("a session".into());
        };
        assert!(rt; fault == wanted);
    }
    Ok(())
}

#[test]
fn told_faults(rt: HostRuntime) -> Result<(), Fail> {
    let fault = ReadFault {
        kind: ReadKind::Truncated,
        at: 8,
    };
    let text = RecordSinkFault::Text { cpu: 3, fault }.to_string(rt.alloc())?;
    assert!(rt; text.as_str() == "a batch of cpu 3: truncated at byte 8");
    let memory = RecordSinkFault::Memory.to_string(rt.alloc())?;
    assert!(rt; memory.as_str() == "out of memory");
    Ok(())
}
