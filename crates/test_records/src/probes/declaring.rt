//! Probes as they are declared: their schema, their names, and what is refused.
use crate::same::same;
use dspec_probe::{Fields, Kind, Probe, ProbeFault, Probes};
use dspec_record::{Enablings, Field, Header};
use std::test::Fail;

#[test]
fn two_probes(rt: HostRuntime) -> Result<(), Fail> {
    let mut probes = Probes::new(rt.alloc());
    let query: Probe<(u64, u32)> = probes.probe("query", &["request", "micros"])?;
    let late: Probe<(bool,)> = probes.probe("late", &["is"])?;
    same(&rt, (query.epid(), late.epid()), (1, 2));
    let mut wanted = Enablings::new();
    wanted.enable(&[Field::Eight, Field::Four])?;
    wanted.enable(&[Field::One])?;
    same(&rt, probes.enablings(), wanted.stamped());
    let [first, second] = probes.names() else {
        return Err(Fail::from("two names"));
    };
    same(&rt, (first.event, second.event), ("query", "late"));
    same(&rt, first.fields, ["request", "micros"].as_slice());
    same(&rt, second.fields, ["is"].as_slice());
    Ok(())
}

#[test]
fn probes_without_stamps(rt: HostRuntime) -> Result<(), Fail> {
    let mut probes = Probes::unstamped(rt.alloc());
    same(&rt, probes.enablings(), Enablings::new());
    let _: Probe<(i16,)> = probes.probe("drift", &["by"])?;
    same(&rt, probes.enablings().header(), Header::One);
    Ok(())
}

/// The fields of each number of types, in their order.
#[test]
fn fields_of_tuples(rt: HostRuntime) {
    let lone = <(i8,)>::fields();
    same(&rt, lone.as_slice(), [Field::One].as_slice());
    let three = <(u8, u16, f64)>::fields();
    let wanted = [Field::One, Field::Two, Field::Eight];
    same(&rt, three.as_slice(), wanted.as_slice());
    let eight = <(u8, i16, u32, i64, bool, f32, f64, u16)>::fields();
    let [one, two, four, wide] = [Field::One, Field::Two, Field::Four, Field::Eight];
    let wanted = [one, two, four, wide, one, four, wide, two];
    same(&rt, eight.as_slice(), wanted.as_slice());
}

#[test]
fn declarations_refused(rt: HostRuntime) -> Result<(), Fail> {
    let mut probes = Probes::new(rt.alloc());
    let few = probes.probe::<(u64, u32)>("query", &["request"]).err();
    same(&rt, few, Some(ProbeFault::FieldCount));
    let many = probes.probe::<(u64,)>("query", &["a", "b"]).err();
    same(&rt, many, Some(ProbeFault::FieldCount));
    same(&rt, probes.names().len(), 0);
    for _ in 0..64 {
        let _: Probe<(u8,)> = probes.probe("same", &["one"])?;
    }
    let one_more = probes.probe::<(u8,)>("one more", &["one"]).err();
    same(&rt, one_more, Some(ProbeFault::TooMany));
    let counts = (probes.names().len(), probes.enablings().count());
    same(&rt, counts, (64, 64));
    Ok(())
}

#[test]
fn labels_of_fields(rt: HostRuntime) -> Result<(), Fail> {
    let mut probes = Probes::new(rt.alloc());
    let few = probes
        .probe_labelled::<(u32, u8)>("end", &["transfer", "outcome"], &[&[]])
        .err();
    same(&rt, few, Some(ProbeFault::LabelCount));
    same(&rt, probes.names().len(), 0);
    let labels: &[&[&str]] = &[&[], &["done", "aborted"]];
    let end: Probe<(u32, u8)> = probes.probe_labelled("end", &["transfer", "outcome"], labels)?;
    same(&rt, end.epid(), 1);
    let [names] = probes.names() else {
        return Err(Fail::from("one name"));
    };
    same(&rt, names.labels, Some(labels));
    Ok(())
}

/// What the numbers of each type mean.
#[test]
fn kinds_of_tuples(rt: HostRuntime) -> Result<(), Fail> {
    let mut probes = Probes::new(rt.alloc());
    let _: Probe<(i8, bool, f32)> = probes.probe("three", &["a", "b", "c"])?;
    let [names] = probes.names() else {
        return Err(Fail::from("one name"));
    };
    let [a, b, c, after, ..] = names.kinds;
    let wanted = [Kind::Signed, Kind::Unsigned, Kind::Float, Kind::Unsigned];
    same(&rt, [a, b, c, after], wanted);
    assert!(rt; names.labels.is_none());
    Ok(())
}

#[test]
fn schemas_that_have_a_probe(rt: HostRuntime) -> Result<(), Fail> {
    let mut probes = Probes::new(rt.alloc());
    let first: Probe<(u64, u32)> = probes.probe("first", &["a", "b"])?;
    let earlier = probes.enablings();
    let second: Probe<(u32, u64)> = probes.probe("second", &["a", "b"])?;
    assert!(rt; first.is_of(&earlier) && first.is_of(&probes.enablings()));
    assert!(rt; !second.is_of(&earlier) && second.is_of(&probes.enablings()));
    let mut other = Probes::unstamped(rt.alloc());
    let plain: Probe<(u64, u32)> = other.probe("plain", &["a", "b"])?;
    assert!(rt; plain.is_of(&other.enablings()) && !plain.is_of(&earlier));
    // of the same width, and one field more
    let mut alike = Enablings::new();
    alike.enable(&[Field::Eight, Field::Four, Field::One])?;
    assert!(rt; !first.is_of(&alike.stamped()));
    Ok(())
}

#[test]
fn texts_of_faults(rt: HostRuntime) -> Result<(), Fail> {
    let texts = [
        (ProbeFault::FieldCount, "not a name for each field"),
        (
            ProbeFault::LabelCount,
            "not a list of labels for each field",
        ),
        (ProbeFault::TooMany, "too many probes"),
        (ProbeFault::Memory, "out of memory"),
    ];
    for (fault, wanted) in texts {
        let text = format!(in rt.alloc(); "{fault}")?;
        same(&rt, text.as_str(), wanted);
    }
    Ok(())
}
