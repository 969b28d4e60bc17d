//! Probes that a lane's schema doesn't have.
use crate::same::same;
use dspec::{
    Clock, Config, Enablings, ForeignProbe, Lane, Probe, Probes, Rec, RecordSink, Recording,
    Spoken, Steps, Work, trace,
};
use std::alloc::Global;
use std::test::Fail;

/// A clock that stands.
#[derive(Drop)]
struct Noon;

impl Clock for Noon {
    fn stamp(&self) -> u64 {
        12
    }
}

/// A probe of this program, and one of another.
#[derive(Drop)]
struct Mixed {
    own: Probe<(u64, u32)>,
    foreign: Probe<(u64, u16)>,
}

impl Work<Enablings> for Mixed {
    /// Each probe that the lane has records once.
    fn work(&self, lane: &mut Lane<'_, Enablings>) {
        if let Ok(foreign) = self.foreign.on(lane) {
            foreign.record(lane, 1, (1, 1));
        }
        if let Ok(own) = self.own.on(lane) {
            own.record(lane, 2, (2, 2));
        }
    }
}

/// Tries each probe in a path.
#[derive(Drop)]
struct Tries {
    mixed: Mixed,
}

impl Work<Enablings> for Tries {
    fn work(&self, lane: &mut Lane<'_, Enablings>) {
        let path = lane.path().hand();
        let clock = &Noon;
        let mut steps = Steps { lane, clock, path };
        let foreign = steps.try_record(self.mixed.foreign, (1, 1));
        let own = steps.try_record(self.mixed.own, (2, 2));
        steps.end(foreign.is_none() && own == Some(Spoken::Kept));
    }
}

/// The schema of this program, with both probes.
fn both_probes(alloc: Global) -> Result<(Enablings, Mixed), Fail> {
    let (mut probes, mut others) = (Probes::new(alloc), Probes::new(alloc));
    let own = probes.probe("own", &["a", "b"])?;
    let foreign = others.probe("foreign", &["a", "b"])?;
    Ok((probes.enablings(), Mixed { own, foreign }))
}

#[test]
fn foreign_probes(rt: HostRuntime) -> Result<(), Fail> {
    let (schema, work) = both_probes(rt.alloc())?;
    let config = Config::of(1, 2, 256, 128);
    let mut kept = RecordSink::new(rt.alloc());
    trace(&rt, rt.alloc(), &config, schema, &work, &mut kept)?;
    let records = kept.records()?;
    same(&rt, records.len(), 1);
    for rec in &records {
        assert!(rt; work.own.read(rec) == Some((2, 2)));
    }
    let text = format!(in rt.alloc(); "{ForeignProbe}")?;
    same(&rt, text.as_str(), "the schema doesn't have the probe");
    Ok(())
}

#[test]
fn foreign_probes_in_paths(rt: HostRuntime) -> Result<(), Fail> {
    let (schema, mixed) = both_probes(rt.alloc())?;
    let config = Config::of(1, 2, 256, 128);
    let (mut kept, work) = (RecordSink::new(rt.alloc()), Tries { mixed });
    trace(&rt, rt.alloc(), &config, schema, &work, &mut kept)?;
    let records = kept.records()?;
    let [only] = records.as_slice() else {
        return Err(Fail::from("one record"));
    };
    assert!(rt; Some(*only) == Rec::stamped(1, 12, &[2, 2]));
    Ok(())
}
