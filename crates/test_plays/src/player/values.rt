//! Configurations, series, small values and the laws.
use super::*;
use dspec_core::{
    DecideFate, Series, acceptance_law, bare_shows, bounded_steps, close_is_legal, closed_for_good,
    empty_fits, fate_law, full_drops, never_sealed, own_parts, own_reads, own_report, placed_seals,
    prefix_law, refused_closes, schedule_answers, schedule_legality, solo_rule, weaving,
    whole_calls, whole_plays, whole_release, woven_close, woven_headline,
};

/// What a configuration of sizes has beside them, and that those at their limits are allowed.
#[test]
fn configurations(rt: HostRuntime) {
    let largest = Config {
        cpus: 64,
        nspec: 63,
        bufsize: 1_048_576,
        specsize: 1_048_576,
        max_issues: 1 << 57,
        max_calls: 1 << 62,
        policy: Policy::Switch,
    };
    assert_eq!(rt; Config::of(64, 63, 1_048_576, 1_048_576), largest);
    for config in [SMALL, largest] {
        assert_eq!(rt; config.check(), Ok(()), "{config:?}");
    }
}

/// The values of a series.
fn holds(rt: &impl Abort, series: &Series<u8>, values: &[u8]) {
    assert!(rt; series.as_slice() == values);
    assert!(rt; series.len() == values.len());
    assert!(rt; series.is_empty() == values.is_empty());
}

#[test]
fn series(rt: HostRuntime) -> Result<(), Fail> {
    let mut series = Series::new(rt.alloc());
    holds(&rt, &series, &[]);
    for value in [7, 8, 9] {
        series.push(value)?;
    }
    series.truncate(5);
    holds(&rt, &series, &[7, 8, 9]);
    series.truncate(1);
    holds(&rt, &series, &[7]);
    Ok(())
}

#[test]
fn small_values(rt: HostRuntime) {
    let id = SpecId::from_raw(65);
    assert!(rt; Opening::Id(id).id() == id);
    assert!(rt; Opening::Busy.id() == SpecId::NONE);
    assert!(rt; DecideFate::Lost(2).answer() == Decided::Lost(2));
    assert!(rt; Policy::Fill.is_fill() && !Policy::Switch.is_fill());
}

#[test]
fn laws() {
    prefix_law();
    acceptance_law();
    fate_law();
    full_drops();
    never_sealed();
    closed_for_good();
    empty_fits();
    refused_closes();
    bare_shows();
    own_parts();
    own_reads();
    own_report();
    placed_seals();
    weaving();
    woven_headline();
    woven_close();
    schedule_legality();
    schedule_answers();
    bounded_steps();
    solo_rule();
    close_is_legal();
    whole_calls();
    whole_plays();
    whole_release();
}
