//! Seeded random numbers for tests that choose at random and have to repeat: the generator xoshiro256++ of the kit. The same seed
//! gives the same numbers on every machine. None is for secrets.
ghost use Rattle.std.specs.Prelude.{◌≡◌, ◌<◌, ◌≤◌, ◌+◌, ◌-◌, ◌%◌, ◌^◌, ◌↔◌, IsTrue};
ghost use Rattle.rand_xoshiro.specs.{SplitMix64.splitmix_seed, Xoshiro256.of_seed, Xoshiro256.plus_plus};

use rand_core::SeedableRng;
use rand_core::utils::NextWord;
use rand_xoshiro::Xoshiro256PlusPlus;
use std::marker::Model;

/// A generator. Contracts see the words of its state.
#[derive(Drop)]
pub struct Dice {
    generator: Xoshiro256PlusPlus,
}

impl Model for Dice {
    ghost use Rattle.std.specs.Prelude.{ℕ, List};

    ghost Value = { List ℕ };

    ghost view = { λ d. d.generator };
}

impl Dice {
    /// The generator that a seed determines.
    pub fn new(seed: u64) -> Dice
        ensures { result ≡ of_seed (splitmix_seed 32 seed) }
    {
        Dice {
            generator: Xoshiro256PlusPlus::seed_from_u64(seed),
        }
    }

    /// Any number.
    pub fn word(&mut self) -> u64
        ensures drawn { result ≡ (plus_plus self.old).0 }
        ensures moved { self.new ≡ (plus_plus self.old).1 }
    {
        self.generator.next_word()
    }

    /// One of the numbers below `faces`: the remainder of the next word.
    pub fn roll(&mut self, faces: u32) -> u32
        requires faces { 0 < faces }
        ensures face { result < faces }
        ensures drawn { result ≡ (plus_plus self.old).0 % faces }
        ensures moved { self.new ≡ (plus_plus self.old).1 }
    {
        (self.word() % u64::from(faces)) as u32
    }

    /// One of the numbers from `least` to `most`, both among them.
    pub fn between(&mut self, least: u32, most: u32) -> u32
        requires order { least ≤ most }
        requires room { most < 2 ^ 32 - 1 }
        ensures within { (least ≤ result) × (result ≤ most) }
        ensures drawn { result ≡ least + (plus_plus self.old).0 % (most - least + 1) }
        ensures moved { self.new ≡ (plus_plus self.old).1 }
    {
        least + self.roll(most - least + 1)
    }

    /// True in so many of a hundred cases.
    pub fn chance(&mut self, percent: u32) -> bool
        ensures drawn { IsTrue result ↔ ((plus_plus self.old).0 % 100 < percent) }
        ensures moved { self.new ≡ (plus_plus self.old).1 }
    {
        self.roll(100) < percent
    }

    /// True in one of so many cases.
    pub fn once_in(&mut self, many: u32) -> bool
        requires { 0 < many }
        ensures drawn { IsTrue result ↔ ((plus_plus self.old).0 % many ≡ 0) }
        ensures moved { self.new ≡ (plus_plus self.old).1 }
    {
        self.roll(many) == 0
    }
}
