//! Records by their values: what the schema doesn't accept isn't offered.
use super::playing::{same, session};
use dspec_deeds::{Config, Policy, Report, Spoken, Traced};
use dspec_record::{Enablings, Field};
use std::test::Fail;

/// Room for three records of eight bytes.
const CONFIG: Config = Config {
    cpus: 2,
    nspec: 1,
    bufsize: 24,
    specsize: 24,
    max_issues: 8,
    max_calls: 100,
    policy: Policy::Fill,
};

#[test]
fn records_by_values(rt: HostRuntime) -> Result<(), Fail> {
    let mut schema = Enablings::new();
    assert!(rt; schema.enable(&[Field::One]).is_ok());
    let Ok((mut cpus, _near, _far)) = session(rt.alloc(), &CONFIG, schema) else {
        return Err("no session".into());
    };
    let (first, shared) = (&mut cpus.first, &cpus.shared);
    same(&rt, first.number(), 0);
    same(&rt, *first.schema(), schema);
    same(&rt, first.record(shared, 1, 0, &[255]), Some(Traced::Kept));
    same(&rt, first.record(shared, 1, 0, &[256]), None);
    same(&rt, first.record(shared, 1, 7, &[255]), None);
    same(&rt, first.record(shared, 2, 0, &[]), None);
    same(&rt, first.record(shared, 1, 0, &[0; 9]), None);
    let id = first.speculation(shared).id();
    same(&rt, first.offer(shared, id, 1, 0, &[3]), Some(Spoken::Kept));
    same(&rt, first.offer(shared, id, 1, 0, &[]), None);
    same(&rt, first.offer(shared, id, 1, 0, &[0; 9]), None);
    let report = Report {
        offered: 2,
        accepted: 1,
        held: 1,
        ..Report::default()
    };
    same(&rt, first.report(shared), report);
    Ok(())
}
