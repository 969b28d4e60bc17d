//! Random numbers of the seeds 0 and 1, by the published steps of SplitMix64 and xoshiro256++.
use crate::same::same;
use dspec_samples::Dice;

#[test]
fn drawn_numbers(rt: HostRuntime) {
    let mut none = Dice::new(0);
    same(&rt, none.word(), 0x5317_5d61_490b_23df);
    same(&rt, none.word(), 0x61da_6f3d_c380_d507);

    let mut dice = Dice::new(1);
    same(&rt, dice.word(), 0xcfc5_d07f_6f03_c29b);
    same(&rt, dice.roll(6), 5);
    same(&rt, dice.between(10, 19), 14);
    same(&rt, dice.chance(70), false);
    same(&rt, dice.chance(81), true);
    same(&rt, dice.once_in(3), false);
    same(&rt, dice.once_in(2), false);
    same(&rt, dice.once_in(3), false);
}
