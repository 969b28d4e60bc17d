//! Where the end of a path was cut: what was dropped from a CPU's buffer of a speculation, and what is in it.
use super::playing::{same, session};
use dspec_deeds::{Config, Decided, Spoken};
use dspec_record::{Enablings, Field};
use std::test::Fail;

/// The fourth record is cut, of the CPU that offered it alone; the slot's next speculation begins with none.
#[test]
fn end_of_a_path(rt: HostRuntime) -> Result<(), Fail> {
    let mut schema = Enablings::new();
    assert!(rt; schema.enable(&[Field::One]).is_ok());
    // room for three records of eight bytes
    let config = Config::of(2, 1, 24, 24);
    let Ok((mut cpus, _near, _far)) = session(rt.alloc(), &config, schema) else {
        return Err("no session".into());
    };
    let (first, second, shared) = (&mut cpus.first, &cpus.second, &cpus.shared);
    let id = first.speculation(shared).id();
    let kept = Some(Spoken::Kept);
    same(&rt, first.offer(shared, id, 1, 0, &[3]), kept);
    same(&rt, first.offer(shared, id, 1, 0, &[3]), kept);
    same(&rt, first.offer(shared, id, 1, 0, &[3]), kept);
    same(&rt, first.dropped_in(id), 0);
    let dropped = Some(Spoken::Dropped);
    same(&rt, first.offer(shared, id, 1, 0, &[3]), dropped);
    same(&rt, first.dropped_in(id), 1);
    same(&rt, second.dropped_in(id), 0);
    same(&rt, first.commit(shared, id), Decided::Copied(3));
    let next = first.speculation(shared).id();
    same(&rt, first.offer(shared, next, 1, 0, &[4]), kept);
    same(&rt, first.dropped_in(next), 0);
    same(&rt, first.dropped_in(id), 0);
    Ok(())
}

/// A slot's block is the records of its speculation on that CPU, the oldest first; none after a decision, on another CPU, or of a slot that isn't there.
#[test]
fn block_of_a_slot(rt: HostRuntime) -> Result<(), Fail> {
    let mut schema = Enablings::new();
    assert!(rt; schema.enable(&[Field::One]).is_ok());
    let config = Config::of(2, 2, 24, 24);
    let Ok((mut cpus, _near, _far)) = session(rt.alloc(), &config, schema) else {
        return Err("no session".into());
    };
    let (first, second, shared) = (&mut cpus.first, &cpus.second, &cpus.shared);
    let nothing: &[u8] = &[];
    same(&rt, first.block_at(1), nothing);
    let one = first.speculation(shared).id();
    let two = first.speculation(shared).id();
    let kept = Some(Spoken::Kept);
    same(&rt, first.offer(shared, two, 1, 0, &[3]), kept);
    same(&rt, first.offer(shared, two, 1, 0, &[200]), kept);
    same(&rt, first.offer(shared, one, 1, 0, &[7]), kept);
    let of_two: &[u8] = &[1, 0, 0, 0, 3, 0, 0, 0, 1, 0, 0, 0, 200, 0, 0, 0];
    let of_one: &[u8] = &[1, 0, 0, 0, 7, 0, 0, 0];
    same(&rt, first.block_at(two.slot()), of_two);
    same(&rt, first.block_at(one.slot()), of_one);
    same(&rt, second.block_at(two.slot()), nothing);
    same(&rt, first.block_at(0), nothing);
    same(&rt, first.block_at(3), nothing);
    same(&rt, first.discard(shared, two), Decided::Thrown(2));
    same(&rt, first.block_at(two.slot()), nothing);
    same(&rt, first.block_at(one.slot()), of_one);
    Ok(())
}
