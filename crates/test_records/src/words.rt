//! The words of speculations, by the rows of their tables, and identifiers.
use crate::same::same;
use dspec_word::{
    Act, Code, SpecId, Word, commit_at, discard_at, open_at, reap_at, settle_at, speculate_at,
};
use std::process::Abort;

const LAST_ISSUE: u64 = 1 << 57;

// An attempt at the tables' issue, which is 8.
fn to(code: Code) -> Act {
    Act::Attempt(Word::of(8, code))
}

fn to_next_issue() -> Act {
    Act::Attempt(Word::of(9, Code::Inactive))
}

// Compares what `speculate`, `commit` and `discard` do, at their own and at another issue.
fn callers_row(rt: &impl Abort, code: Code, mine: bool, acts: &[Act; 3]) {
    let word = Word::of(8, code);
    let id = SpecId::of(8, 5);
    same(
        rt,
        (code, mine, speculate_at(word, id, mine)),
        (code, mine, acts[0]),
    );
    same(
        rt,
        (code, mine, commit_at(word, id, mine)),
        (code, mine, acts[1]),
    );
    same(
        rt,
        (code, mine, discard_at(word, id, mine)),
        (code, mine, acts[2]),
    );
    let stale = SpecId::of(7, 5);
    same(
        rt,
        (code, mine, speculate_at(word, stale, mine)),
        (code, mine, Act::Void),
    );
    same(
        rt,
        (code, mine, commit_at(word, stale, mine)),
        (code, mine, Act::Void),
    );
    same(
        rt,
        (code, mine, discard_at(word, stale, mine)),
        (code, mine, Act::Void),
    );
}

#[test]
fn rows_of_the_callers_tables(rt: HostRuntime) {
    let nothing = [Act::Void, Act::Void, Act::Void];
    let of_active = [
        to(Code::ActiveOne),
        to(Code::Committing),
        to(Code::Discarding),
    ];
    let of_the_one = [Act::Granted, to(Code::Committing), to_next_issue()];
    let of_a_second = [
        to(Code::ActiveMany),
        to(Code::CommittingMany),
        to(Code::Discarding),
    ];
    let of_many = [Act::Granted, to(Code::CommittingMany), to(Code::Discarding)];
    for mine in [false, true] {
        callers_row(&rt, Code::Inactive, mine, &nothing);
        callers_row(&rt, Code::Active, mine, &of_active);
        callers_row(&rt, Code::ActiveMany, mine, &of_many);
        callers_row(&rt, Code::Committing, mine, &nothing);
        callers_row(&rt, Code::CommittingMany, mine, &nothing);
        callers_row(&rt, Code::Discarding, mine, &nothing);
    }
    callers_row(&rt, Code::ActiveOne, true, &of_the_one);
    callers_row(&rt, Code::ActiveOne, false, &of_a_second);
}

// Compares what opening, settling and reaping do where each is due, and where it isn't.
fn slots_row(rt: &impl Abort, code: Code, acts: &[Act; 3]) {
    let word = Word::of(8, code);
    same(rt, (code, open_at(word, 9)), (code, acts[0]));
    same(rt, (code, open_at(word, 8)), (code, Act::Void));
    same(rt, (code, settle_at(word, 8)), (code, acts[1]));
    same(rt, (code, settle_at(word, 9)), (code, Act::Idle));
    same(rt, (code, reap_at(word, true)), (code, acts[2]));
    same(rt, (code, reap_at(word, false)), (code, Act::Idle));
}

#[test]
fn rows_of_the_slots_tables(rt: HostRuntime) {
    let nothing = [Act::Void, Act::Idle, Act::Idle];
    let of_awaiting = [Act::Void, Act::Granted, to_next_issue()];
    slots_row(
        &rt,
        Code::Inactive,
        &[to(Code::Active), Act::Idle, Act::Idle],
    );
    slots_row(&rt, Code::Active, &nothing);
    slots_row(&rt, Code::ActiveOne, &nothing);
    slots_row(&rt, Code::ActiveMany, &nothing);
    slots_row(&rt, Code::Committing, &nothing);
    slots_row(&rt, Code::CommittingMany, &of_awaiting);
    slots_row(&rt, Code::Discarding, &of_awaiting);
}

#[test]
fn retired_slot(rt: HostRuntime) {
    let retired = Word::of(LAST_ISSUE, Code::Inactive);
    same(&rt, open_at(retired, LAST_ISSUE), Act::Void);
    let before = Word::of(LAST_ISSUE - 1, Code::ActiveOne);
    let id = SpecId::of(LAST_ISSUE - 1, 1);
    same(&rt, discard_at(before, id, true), Act::Attempt(retired));
}

#[test]
fn numbers(rt: HostRuntime) {
    same(&rt, Word::of(3, Code::ActiveMany).raw(), 27);
    same(&rt, Word::from_raw(27), Some(Word::of(3, Code::ActiveMany)));
    same(&rt, Word::from_raw(31), None);
    same(&rt, Word::of_number(27), Word::of(3, Code::ActiveMany));
    same(
        &rt,
        Word::from_raw(LAST_ISSUE * 8),
        Some(Word::of(LAST_ISSUE, Code::Inactive)),
    );
    same(&rt, Word::from_raw(LAST_ISSUE * 8 + 8), None);
    same(&rt, Word::of(1, Code::Inactive).issue(), 1);
    same(&rt, Word::of(1, Code::Inactive).code(), Code::Inactive);
    assert!(rt; Word::of(0, Code::Discarding) < Word::of(1, Code::Inactive));
    assert!(rt; Word::of(3, Code::ActiveOne).is_at(3, Code::ActiveOne));
    assert!(rt; !Word::of(3, Code::ActiveOne).is_at(3, Code::ActiveMany));
    assert!(rt; !Word::of(3, Code::ActiveOne).is_at(4, Code::ActiveOne));
    assert!(rt; Word::of(3, Code::Committing).is_decided());
    assert!(rt; !Word::of(3, Code::ActiveMany).is_decided());

    same(&rt, SpecId::of(0, 1).raw(), 1);
    same(&rt, SpecId::of(1, 1).raw(), 65);
    same(&rt, SpecId::NONE.raw(), 0);
    same(&rt, SpecId::default(), SpecId::NONE);
    same(&rt, SpecId::from_raw(129).slot(), 1);
    same(&rt, SpecId::from_raw(129).issue(), 2);
    same(&rt, SpecId::from_raw(64).slot(), 0);
    same(&rt, SpecId::from_raw(u64::MAX).raw(), u64::MAX);
    assert!(rt; SpecId::of(0, 63) < SpecId::of(1, 0));
}
