//! The parts of a record that writes itself.
use crate::same::same;
use dspec_record::laid_out::{laid_shape, pack_after, put_packed};
use dspec_record::{Field, Header, Shape};
use std::test::Fail;

/// The word of two fields: a byte of 5 at place 4, two bytes of 515 at place 6.
const WORD: u64 = 0x0203_0005_0000_0000;

#[test]
fn record_by_its_parts(rt: HostRuntime) -> Result<(), Fail> {
    let shape = Shape { size: 16, align: 4 };
    let found = laid_shape(Header::Two, &[Field::One, Field::Two]);
    same(&rt, found, shape);
    let mut words = [0; 9];
    let next = pack_after(Field::One, 5, 4, &mut words);
    let end = pack_after(Field::Two, 515, next, &mut words);
    same(&rt, [next, end], [5, 8]);
    same(&rt, words, [WORD, 0, 0, 0, 0, 0, 0, 0, 0]);
    let mut text = [9; 16];
    put_packed(Header::One, 7, 0, &[WORD], &mut text);
    same(&rt, text, [7, 0, 0, 0, 5, 0, 3, 2, 9, 9, 9, 9, 9, 9, 9, 9]);
    put_packed(Header::Two, 7, 9 + (1 << 32), &[WORD], &mut text);
    same(&rt, text, [7, 0, 0, 0, 9, 0, 0, 0, 1, 0, 0, 0, 5, 0, 3, 2]);
    Ok(())
}
