//! Paths of one CPU, whose principal buffers and speculative buffers have room for three records of eight bytes.
use crate::staging::{same, session};
use dspec_deeds::{Config, Decided, Report, Spoken};
use dspec_paths::{LentCpu, PathEnd, PathKey, Paths, WhosePaths};
use std::test::Fail;

/// A kept path comes out whole, one that is thrown away doesn't, and each ends once.
#[test]
fn kept_and_thrown_away(rt: HostRuntime) -> Result<(), Fail> {
    let Ok((shared, mut cpu)) = session(rt.alloc(), &Config::of(1, 4, 24, 24)) else {
        return Err("no session".into());
    };
    let mut cpu = LentCpu::of(&shared, &mut cpu);
    let mut paths = Paths::new();
    let one = paths.begin(&mut cpu, 1, 7, 0).expect(&rt, "a path");
    let two = paths.begin(&mut cpu, 2, 8, 0).expect(&rt, "a path");
    same(&rt, cpu.offer(one.newest, 1, 0, &[3]), Some(Spoken::Kept));
    same(&rt, cpu.offer(two.newest, 1, 0, &[4]), Some(Spoken::Kept));
    same(&rt, cpu.offer(one.newest, 1, 0, &[5]), Some(Spoken::Kept));
    same(
        &rt,
        paths.keep(&mut cpu, &one, false),
        PathEnd::Ended(0, Decided::Copied(2)),
    );
    same(&rt, paths.discard(&mut cpu, &two), true);
    same(&rt, paths.keep(&mut cpu, &one, false), PathEnd::Over);
    same(&rt, paths.discard(&mut cpu, &two), false);
    let (accepted, discarded) = (cpu.report().accepted, cpu.report().discarded);
    same(&rt, (accepted, discarded), (2, 1));
    Ok(())
}

/// A path that keeps its last records: the first speculation is thrown away, and the others are kept, the older one first.
#[test]
fn last_records(rt: HostRuntime) -> Result<(), Fail> {
    let Ok((shared, mut cpu)) = session(rt.alloc(), &Config::of(1, 4, 48, 24)) else {
        return Err("no session".into());
    };
    let mut cpu = LentCpu::of(&shared, &mut cpu);
    let mut paths = Paths::new();
    let first = paths.begin(&mut cpu, 1, 7, 0).expect(&rt, "a path");
    same(&rt, cpu.offer(first.newest, 1, 0, &[1]), Some(Spoken::Kept));
    let newest = paths.turn(&mut cpu, &first).expect(&rt, "a speculation");
    let second = PathKey { newest, ..first };
    same(&rt, cpu.offer(newest, 1, 0, &[2]), Some(Spoken::Kept));
    same(&rt, paths.turn(&mut cpu, &first), None);
    let newest = paths.turn(&mut cpu, &second).expect(&rt, "a speculation");
    let third = PathKey { newest, ..first };
    same(
        &rt,
        paths.open_at(first.place).map_or(0, |path| path.cut),
        1,
    );
    same(
        &rt,
        paths.keep(&mut cpu, &third, true),
        PathEnd::Ended(1, Decided::Copied(0)),
    );
    let report = Report {
        offered: 2,
        accepted: 1,
        discarded: 1,
        ..Report::default()
    };
    same(&rt, cpu.report(), report);
    Ok(())
}

/// A path is kept one speculation a call, and the last one can't be thrown away any more.
#[test]
fn a_part_a_call(rt: HostRuntime) -> Result<(), Fail> {
    let Ok((shared, mut cpu)) = session(rt.alloc(), &Config::of(1, 4, 48, 24)) else {
        return Err("no session".into());
    };
    let mut cpu = LentCpu::of(&shared, &mut cpu);
    let mut paths = Paths::new();
    let first = paths.begin(&mut cpu, 1, 7, 0).expect(&rt, "a path");
    same(&rt, cpu.offer(first.newest, 1, 0, &[1]), Some(Spoken::Kept));
    let newest = paths.turn(&mut cpu, &first).expect(&rt, "a speculation");
    let second = PathKey { newest, ..first };
    same(&rt, cpu.offer(newest, 1, 0, &[2]), Some(Spoken::Kept));
    same(&rt, cpu.offer(newest, 1, 0, &[3]), Some(Spoken::Kept));
    same(
        &rt,
        paths.keep_part(&mut cpu, &second, false),
        PathEnd::GoesOn(1),
    );
    same(&rt, paths.discard(&mut cpu, &second), false);
    same(
        &rt,
        paths.keep_part(&mut cpu, &second, false),
        PathEnd::Ended(0, Decided::Copied(2)),
    );
    same(
        &rt,
        paths.keep_part(&mut cpu, &second, false),
        PathEnd::Over,
    );
    same(&rt, cpu.report().accepted, 3);
    Ok(())
}

/// Where the buffer is full a path waits, or is lost.
#[test]
fn no_room(rt: HostRuntime) -> Result<(), Fail> {
    let Ok((shared, mut cpu)) = session(rt.alloc(), &Config::of(1, 4, 16, 24)) else {
        return Err("no session".into());
    };
    let mut cpu = LentCpu::of(&shared, &mut cpu);
    let mut paths = Paths::new();
    let one = paths.begin(&mut cpu, 1, 7, 0).expect(&rt, "a path");
    for value in [1, 2, 3] {
        same(
            &rt,
            cpu.offer(one.newest, 1, 0, &[value]),
            Some(Spoken::Kept),
        );
    }
    same(&rt, paths.keep(&mut cpu, &one, true), PathEnd::Waits(0));
    same(&rt, paths.adopt(&one, 9), true);
    same(
        &rt,
        paths.keep(&mut cpu, &one, false),
        PathEnd::Ended(0, Decided::Lost(3)),
    );
    same(&rt, paths.adopt(&one, 9), false);
    same(&rt, cpu.report().lost, 3);
    Ok(())
}

/// The paths of one thread are thrown away, and those of the others kept.
#[test]
fn paths_of_a_thread(rt: HostRuntime) -> Result<(), Fail> {
    let Ok((shared, mut cpu)) = session(rt.alloc(), &Config::of(1, 4, 24, 24)) else {
        return Err("no session".into());
    };
    let mut cpu = LentCpu::of(&shared, &mut cpu);
    let mut paths = Paths::new();
    let one = paths.begin(&mut cpu, 1, 7, 0).expect(&rt, "a path");
    let two = paths.begin(&mut cpu, 2, 8, 0).expect(&rt, "a path");
    same(&rt, cpu.offer(one.newest, 1, 0, &[3]), Some(Spoken::Kept));
    same(&rt, cpu.offer(two.newest, 1, 0, &[4]), Some(Spoken::Kept));
    same(
        &rt,
        paths
            .open_of(two.place, WhosePaths::Thread(8))
            .map_or(0, |path| path.number),
        2,
    );
    same(
        &rt,
        paths
            .open_of(one.place, WhosePaths::Thread(8))
            .map_or(0, |path| path.number),
        0,
    );
    same(
        &rt,
        paths
            .open_of(one.place, WhosePaths::All)
            .map_or(0, |path| path.number),
        1,
    );
    paths.discard_every(&mut cpu, WhosePaths::Thread(8));
    same(&rt, paths.open_at(two.place), None);
    same(&rt, paths.named(&one).map_or(0, |path| path.number), 1);
    paths.keep_every(&mut cpu, WhosePaths::All);
    same(&rt, paths.open_at(one.place), None);
    same(&rt, (cpu.report().accepted, cpu.report().discarded), (1, 1));
    Ok(())
}

/// Where no slot is free no path begins.
#[test]
fn no_slot(rt: HostRuntime) -> Result<(), Fail> {
    let Ok((shared, mut cpu)) = session(rt.alloc(), &Config::of(1, 1, 24, 24)) else {
        return Err("no session".into());
    };
    let mut cpu = LentCpu::of(&shared, &mut cpu);
    let mut paths = Paths::new();
    let one = paths.begin(&mut cpu, 1, 7, 0).expect(&rt, "a path");
    same(&rt, paths.begin(&mut cpu, 2, 7, 0), None);
    same(&rt, paths.turn(&mut cpu, &one), None);
    same(&rt, cpu.offer(one.newest, 1, 0, &[3]), Some(Spoken::Kept));
    same(&rt, paths.discard(&mut cpu, &one), true);
    same(&rt, paths.begin(&mut cpu, 3, 7, 0).is_some(), true);
    Ok(())
}

/// Where its older records have no room a path is lost as a whole, and tells how many of its last ones were thrown away.
#[test]
fn lost_as_a_whole(rt: HostRuntime) -> Result<(), Fail> {
    let Ok((shared, mut cpu)) = session(rt.alloc(), &Config::of(1, 4, 8, 16)) else {
        return Err("no session".into());
    };
    let Ok(mut paths) = Paths::boxed(rt.alloc()) else {
        return Err("no table".into());
    };
    let mut cpu = LentCpu::of(&shared, &mut cpu);
    let first = paths.begin(&mut cpu, 1, 7, 0).expect(&rt, "a path");
    same(&rt, cpu.offer(first.newest, 1, 0, &[1]), Some(Spoken::Kept));
    same(&rt, cpu.offer(first.newest, 1, 0, &[2]), Some(Spoken::Kept));
    let newest = paths.turn(&mut cpu, &first).expect(&rt, "a speculation");
    let second = PathKey { newest, ..first };
    same(&rt, cpu.offer(newest, 1, 0, &[3]), Some(Spoken::Kept));
    same(&rt, paths.keep(&mut cpu, &second, true), PathEnd::Waits(0));
    same(&rt, paths.keep(&mut cpu, &second, false), PathEnd::Lost(1));
    same(&rt, paths.open_at(first.place), None);
    same(&rt, (cpu.report().lost, cpu.report().discarded), (2, 1));
    Ok(())
}
