//! The counts of a table, worked by hand. A record has eight bytes.
use crate::staging::{same, session};
use dspec_deeds::{Config, Decided, Spoken};
use dspec_paths::{LentCpu, PathCounts, PathEnd, PathKey, Paths, WhosePaths};
use std::test::Fail;

/// Of four paths one is kept, one thrown away, one has no room, and one stays open. What finds no path, or waits, counts nothing.
#[test]
fn each_end_counts_once(rt: HostRuntime) -> Result<(), Fail> {
    let Ok((shared, mut cpu)) = session(rt.alloc(), &Config::of(1, 4, 24, 24)) else {
        return Err("no session".into());
    };
    let mut cpu = LentCpu::of(&shared, &mut cpu);
    let mut paths = Paths::new();
    let kept = paths.begin(&mut cpu, 1, 7, 0).expect(&rt, "a path");
    let thrown = paths.begin(&mut cpu, 2, 7, 0).expect(&rt, "a path");
    let lost = paths.begin(&mut cpu, 3, 7, 0).expect(&rt, "a path");
    let left = paths.begin(&mut cpu, 4, 7, 0).expect(&rt, "a path");
    same(&rt, paths.begin(&mut cpu, 5, 7, 0), None);
    for path in [kept, kept, thrown, lost, lost] {
        same(&rt, cpu.offer(path.newest, 1, 0, &[1]), Some(Spoken::Kept));
    }
    same(
        &rt,
        paths.keep(&mut cpu, &kept, false),
        PathEnd::Ended(0, Decided::Copied(2)),
    );
    same(&rt, paths.keep(&mut cpu, &kept, false), PathEnd::Over);
    same(&rt, paths.discard(&mut cpu, &thrown), true);
    same(&rt, paths.discard(&mut cpu, &thrown), false);
    same(&rt, paths.keep(&mut cpu, &lost, true), PathEnd::Waits(0));
    same(
        &rt,
        paths.keep(&mut cpu, &lost, false),
        PathEnd::Ended(0, Decided::Lost(2)),
    );
    same(&rt, paths.adopt(&left, 8), true);
    let counts = PathCounts {
        began: 4,
        kept: 1,
        thrown_away: 1,
        lost: 1,
    };
    same(&rt, paths.counts(), counts);
    Ok(())
}

/// A path whose older records came out is kept, also where its last ones have no room.
#[test]
fn kept_in_part(rt: HostRuntime) -> Result<(), Fail> {
    let Ok((shared, mut cpu)) = session(rt.alloc(), &Config::of(1, 4, 16, 16)) else {
        return Err("no session".into());
    };
    let mut cpu = LentCpu::of(&shared, &mut cpu);
    let mut paths = Paths::new();
    let old = paths.begin(&mut cpu, 1, 7, 0).expect(&rt, "a path");
    same(&rt, cpu.offer(old.newest, 1, 0, &[1]), Some(Spoken::Kept));
    same(&rt, cpu.offer(old.newest, 1, 0, &[2]), Some(Spoken::Kept));
    let newest = paths.turn(&mut cpu, &old).expect(&rt, "a speculation");
    let path = PathKey { newest, ..old };
    same(&rt, cpu.offer(newest, 1, 0, &[3]), Some(Spoken::Kept));
    same(
        &rt,
        paths.keep_part(&mut cpu, &path, false),
        PathEnd::GoesOn(2),
    );
    same(&rt, (paths.counts().began, paths.counts().kept), (1, 0));
    same(
        &rt,
        paths.keep_part(&mut cpu, &path, false),
        PathEnd::Ended(0, Decided::Lost(1)),
    );
    let counts = PathCounts {
        began: 1,
        kept: 1,
        thrown_away: 0,
        lost: 0,
    };
    same(&rt, paths.counts(), counts);
    Ok(())
}

/// A path is lost as a whole, by its older records or by its caller.
#[test]
fn lost_paths(rt: HostRuntime) -> Result<(), Fail> {
    let Ok((shared, mut cpu)) = session(rt.alloc(), &Config::of(1, 4, 8, 16)) else {
        return Err("no session".into());
    };
    let mut cpu = LentCpu::of(&shared, &mut cpu);
    let mut paths = Paths::new();
    let old = paths.begin(&mut cpu, 1, 7, 0).expect(&rt, "a path");
    let other = paths.begin(&mut cpu, 2, 7, 0).expect(&rt, "a path");
    same(&rt, cpu.offer(old.newest, 1, 0, &[1]), Some(Spoken::Kept));
    same(&rt, cpu.offer(old.newest, 1, 0, &[2]), Some(Spoken::Kept));
    same(&rt, cpu.offer(other.newest, 1, 0, &[3]), Some(Spoken::Kept));
    let newest = paths.turn(&mut cpu, &old).expect(&rt, "a speculation");
    let path = PathKey { newest, ..old };
    same(&rt, paths.keep(&mut cpu, &path, false), PathEnd::Lost(0));
    same(&rt, paths.lose(&mut cpu, &other), true);
    same(&rt, paths.lose(&mut cpu, &other), false);
    let counts = PathCounts {
        began: 2,
        kept: 0,
        thrown_away: 0,
        lost: 2,
    };
    same(&rt, paths.counts(), counts);
    same(&rt, (cpu.report().lost, cpu.report().discarded), (2, 1));
    Ok(())
}

/// The paths of a thread, and all that are left, count one by one.
#[test]
fn many_at_once(rt: HostRuntime) -> Result<(), Fail> {
    let Ok((shared, mut cpu)) = session(rt.alloc(), &Config::of(1, 4, 8, 16)) else {
        return Err("no session".into());
    };
    let mut cpu = LentCpu::of(&shared, &mut cpu);
    let mut paths = Paths::new();
    for thread in [7, 8, 7, 9] {
        let path = paths
            .begin(&mut cpu, thread, thread, 0)
            .expect(&rt, "a path");
        same(&rt, cpu.offer(path.newest, 1, 0, &[1]), Some(Spoken::Kept));
    }
    paths.discard_every(&mut cpu, WhosePaths::Thread(7));
    same(
        &rt,
        (paths.counts().began, paths.counts().thrown_away),
        (4, 2),
    );
    paths.keep_every(&mut cpu, WhosePaths::All);
    let counts = PathCounts {
        began: 4,
        kept: 1,
        thrown_away: 2,
        lost: 1,
    };
    same(&rt, paths.counts(), counts);
    Ok(())
}
