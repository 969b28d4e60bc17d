use dspec_deeds::{Config, Policy};
use dspec_samples::Dice;

/// How often a worker makes each kind of call, in a hundred; what is left of a hundred are traces.
#[derive(Clone, Copy, Debug, PartialEq, Eq)]
pub struct Mix {
    pub services: u32,
    pub openings: u32,
    pub decisions: u32,
    pub speculates: u32,
}

/// What a seed chooses.
#[derive(Clone, Copy, Debug, PartialEq, Eq)]
pub struct SeedPlan {
    pub seed: u64,
    pub config: Config,
    pub mix: Mix,
    /// How many of a hundred decisions are commits.
    pub commits: u32,
    /// How many calls each worker makes.
    pub calls: u32,
    /// The consumer stops the session once so many calls were made.
    pub stop_at: u64,
    /// How many of a hundred batches the consumer gives back at once.
    pub returns: u32,
    /// How many places the board has.
    pub places: u32,
    /// After how many of a thousand calls a worker makes way for others.
    pub yields: u32,
    /// How many of a hundred identifiers are of speculations that are over, or never were.
    pub stale: u32,
    /// Whether records have stamps.
    pub stamped: bool,
}

/// The sizes and bounds of a session. Few have so few calls or issues that they are used up.
fn config_of(dice: &mut Dice) -> Config {
    let config = Config {
        cpus: if dice.chance(10) {
            dice.between(9, 64)
        } else {
            dice.between(2, 8)
        },
        nspec: dice.between(1, 16),
        bufsize: 8 * dice.between(32, 1024),
        specsize: 8 * dice.between(4, 32),
        max_issues: if dice.chance(10) { 40 } else { 1 << 57 },
        max_calls: if dice.chance(10) { 800 } else { 1 << 62 },
        policy: Policy::Switch,
    };
    if dice.chance(15) {
        let policy = Policy::Fill;
        return Config { policy, ..config };
    }
    config
}

fn mix_of(dice: &mut Dice) -> Mix {
    Mix {
        services: dice.between(8, 25),
        openings: dice.between(8, 15),
        decisions: dice.between(3, 8),
        speculates: dice.between(25, 45),
    }
}

/// The dice of the consumer; those of a CPU have its number.
pub const CONSUMER_DICE: u64 = 64;
/// The dice of a plan.
const PLAN_DICE: u64 = 65;

/// The dice of this number, below 128, among those of a seed.
pub fn dice_of(seed: u64, number: u64) -> Dice {
    Dice::new(seed.wrapping_mul(128).wrapping_add(number))
}

impl SeedPlan {
    /// The plan of a seed.
    pub fn new(seed: u64) -> SeedPlan {
        let mut dice = dice_of(seed, PLAN_DICE);
        let config = config_of(&mut dice);
        let mix = mix_of(&mut dice);
        let calls = if config.cpus > 8 {
            dice.between(100, 400)
        } else {
            dice.between(500, 2000)
        };
        let all = u64::from(calls).saturating_mul(u64::from(config.cpus));
        SeedPlan {
            seed,
            config,
            mix,
            commits: dice.between(40, 80),
            calls,
            stop_at: all / 100 * u64::from(dice.between(85, 150)),
            returns: dice.between(30, 100),
            places: dice.between(1, config.nspec.clamp(1, 16)),
            yields: dice.between(1, 10),
            stale: dice.between(2, 40),
            stamped: dice.chance(40),
        }
    }
}
